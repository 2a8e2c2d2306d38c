// The trial of one change.
ghost use Rattle.std.specs.Prelude.{◌≡◌, true, length, int_lt};
ghost use Rattle.costs.specs.Amounts.{money};
ghost use Rattle.model.specs.Studies.{model};
ghost use Rattle.solutions.specs.Solved.{solved};
ghost use Rattle.solutions.specs.Promises.{Ready, SolvesLeast};
ghost use Rattle.files.specs.TableAnswers.{table_answers};
ghost use Rattle.trials.specs.Changes.{is_charge_record, with_cents};
ghost use Rattle.trials.specs.Trials.{Tries};

use crate::change::Change;
use crate::changed::Changed;
use costs::money::Money;
use files::table_book::TableBook;
use model::refusal::Refusal;
use model::study::Study;
use solving::solve::solve;

// Solves the study by money with the table book of the file as it now stands. It is handed the file for writing, as the one
// who changed it has it, and only reads it.
// Stays: tried `solve` on `changed.bytes` in `trial`; of bytes lent as `&` from a field the check keeps the length alone.
fn solve_by_file(
    study: &Study,
    file: &mut [u8],
    plan: &mut [u8],
    working: &mut [i64],
) -> Result<i64, Refusal>
    ensures answer { result ≡ (solved money int_lt (model study.now) (table_answers file.old) (length working.old) plan.old).answer }
    ensures place { plan.new ≡ (solved money int_lt (model study.now) (table_answers file.old) (length working.old) plan.old).place }
    ensures solves_least { Ready (model study.now) (table_answers file.old) (length working.old) plan.old → SolvesLeast money int_lt (model study.now) (table_answers file.old) plan.new result }
    ensures file { file.new ≡ file.old }
{
    solve(study, &TableBook { bytes: file }, &Money, plan, working)
}

// The least plan, as `solve` answers it by money with the table book of the file, if one record had the cents of the change.
// The file's bytes are back on every way out.
pub fn trial(
    study: &Study,
    file: &mut [u8],
    change: Change,
    plan: &mut [u8],
    working: &mut [i64],
) -> Result<i64, Refusal>
    ensures tries { Tries (model study.now) file.old change.record change.cents (length working.old) plan.old result plan.new file.new }
    ensures solves_least { is_charge_record file.old change.record ≡ true → Ready (model study.now) (table_answers (with_cents file.old change.record change.cents)) (length working.old) plan.old → SolvesLeast money int_lt (model study.now) (table_answers (with_cents file.old change.record change.cents)) plan.new result }
{
    if !change.is_possible(file) {
        return Err(Refusal::NoChargeRecord);
    }
    let changed = Changed::set(file, change.start(), change.bytes());
    solve_by_file(study, changed.bytes, plan, working)
}
