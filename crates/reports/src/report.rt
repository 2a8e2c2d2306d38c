// The report of a plan: entries and lists that call each other, and the total.
ghost use Rattle.std.specs.Prelude.{◌≡◌, ◌<◌, ◌≤◌, length};
ghost use Rattle.model.specs.Studies.{model};
ghost use Rattle.plans.specs.Questions.{count};
ghost use Rattle.reports.specs.NextUnder.{NextUnder};
ghost use Rattle.reports.specs.Places.{Room, Puts};
ghost use Rattle.reports.specs.Reports.{entry_text, list_text, reported};

use crate::place::Writer;
use model::refusal::Refusal;
use model::study::Study;

// The next component under a parent, numbered `from` or higher.
fn next_under(study: &Study, parent: Option<u8>, from: usize) -> Option<usize>
    ensures { NextUnder (model study.now) parent from result }
{
    let components = study.components();
    (from..components.len()).find(|number| components[*number].parent == parent)
}

// Puts an entry: the component's line, and the list under it.
// Stays: study and plan are handed on between these two alone; a struct of them would be made for one call of `report` (d).
#[cycle(put_entry_put_list)]
fn put_entry(study: &Study, plan: &[u8], number: usize, writer: &mut Writer<'_>)
    requires in_study { number < count (model study.now) }
    requires byte_for_each { count (model study.now) ≤ length plan.now }
    requires room { Room writer.old (entry_text (model study.now) plan.now number) }
    ensures { Puts writer.old (entry_text (model study.now) plan.now number) writer.new }
{
    let level = study.components()[number].level;
    writer.line(level, number as u8, plan[number]);
    put_list(study, plan, Some(number as u8), writer);
}

// Puts a list: the entries of all components under one parent, in number order.
#[cycle(put_entry_put_list)]
fn put_list(study: &Study, plan: &[u8], parent: Option<u8>, writer: &mut Writer<'_>)
    requires byte_for_each { count (model study.now) ≤ length plan.now }
    requires room { Room writer.old (list_text (model study.now) plan.now parent) }
    ensures { Puts writer.old (list_text (model study.now) plan.now parent) writer.new }
{
    // Stays: (a) entry and list calling each other, and the next component as an `Option`, are named forms.
    let mut from = 0;
    while let Some(number) = next_under(study, parent, from) {
        put_entry(study, plan, number, writer);
        from = number + 1;
    }
}

// Writes the report of a plan into the place, and answers its length. The plan is not judged: every component has its
// line.
pub fn report(study: &Study, plan: &[u8], cents: i64, place: &mut [u8]) -> Result<usize, Refusal>
    ensures { (result, place.new) ≡ reported (model study.now) plan.now cents place.old }
{
    let count = study.components().len();
    if plan.len() < count {
        return Err(Refusal::ShortPlan);
    }
    if place.len() < 16 * count + 32 {
        return Err(Refusal::ShortReportPlace);
    }
    let mut writer = Writer::new(place);
    put_list(study, plan, None, &mut writer);
    writer.total(cents);
    Ok(writer.end())
}
