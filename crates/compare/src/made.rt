// Small studies made at random, with the records of their charges.
use crate::random::Random;
use anyhow::Context;
use model::component::{NO_PARENT, Needs};
use model::question::{Question, RepairOption};
use model::study::Study;

// A study, and a file with the T and F records of its charges.
#[derive(Drop)]
pub(crate) struct Made {
    pub study: Study,
    pub charges: Vec<u8>,
}

// The first four bytes of the record that answers a question.
fn head(question: Question) -> [u8; 4] {
    match question {
        Question::OfOption {
            component,
            echelon,
            option,
        } => [b'T', component, echelon, option.letter() as u8],
        Question::OfResource { resource, echelon } => [b'F', resource, echelon, 0],
    }
}

// Adds the record that answers a question: so many cents, and few minutes.
fn add_record(
    random: &mut Random,
    charges: &mut Vec<u8>,
    question: Question,
    cents: i64,
) -> anyhow::Result<()> {
    charges.extend_from_slice(&head(question))?;
    charges.extend_from_slice(&[0; 4])?;
    charges.extend_from_slice(&cents.to_be_bytes())?;
    charges.extend_from_slice(&u64::from(random.below(3)).to_be_bytes())?;
    Ok(())
}

// Adds the charges of one component at one echelon, of -3 to 4 cents. An option without a record is barred.
fn add_options(
    random: &mut Random,
    charges: &mut Vec<u8>,
    component: u8,
    echelon: u8,
) -> anyhow::Result<()> {
    for option in [
        RepairOption::Discard,
        RepairOption::Repair,
        RepairOption::Move,
    ] {
        if random.in_ten(7) {
            let question = Question::OfOption {
                component,
                echelon,
                option,
            };
            let cents = i64::from(random.below(8)) - 3;
            add_record(random, charges, question, cents)?;
        }
    }
    Ok(())
}

// Which resources an option needs, among so many.
fn some_needs(random: &mut Random, resources: u8) -> u8 {
    let mut mask = 0;
    for bit in [1, 2].into_iter().take(usize::from(resources)) {
        if random.in_ten(3) {
            mask |= bit;
        }
    }
    mask
}

// Enters one component under an earlier one, or at the top.
fn add_component(random: &mut Random, study: &mut Study, number: u8) -> anyhow::Result<()> {
    let parent = if random.in_ten(4) || number == 0 {
        NO_PARENT
    } else {
        random.below(number)
    };
    let resources = study.resources();
    let needs = Needs {
        discard: some_needs(random, resources),
        repair: some_needs(random, resources),
        moving: some_needs(random, resources),
    };
    let rate = 1 + u32::from(random.below(2));
    study
        .enter(parent, needs, rate)
        .context("a component was refused")?;
    Ok(())
}

// The echelons, and how many components there may be, so that every assignment can be tried.
fn size(random: &mut Random) -> (u8, u8) {
    match random.below(4) {
        0 => (1, 5),
        1 => (3, 3),
        2 => (2, 5),
        _ => (2, 4),
    }
}

// Enters so many components, each with the charges of its options.
fn add_components(random: &mut Random, made: &mut Made, count: u8) -> anyhow::Result<()> {
    for number in 0..count {
        add_component(random, &mut made.study, number)?;
        for echelon in 1..=made.study.echelons() {
            add_options(random, &mut made.charges, number, echelon)?;
        }
    }
    Ok(())
}

// Adds the charges of the resources, of 0 to 3 cents. A resource without a record is barred.
fn add_resources(random: &mut Random, made: &mut Made) -> anyhow::Result<()> {
    for resource in 0..made.study.resources() {
        for echelon in 1..=made.study.echelons() {
            if random.in_ten(8) {
                let question = Question::OfResource { resource, echelon };
                let cents = i64::from(random.below(4));
                add_record(random, &mut made.charges, question, cents)?;
            }
        }
    }
    Ok(())
}

// A study with its charges.
pub(crate) fn make(rt: &HostRuntime, random: &mut Random) -> anyhow::Result<Made> {
    let mut made = Made {
        study: Study::blank(rt.alloc())?,
        charges: Vec::new(rt.alloc()),
    };
    let (echelons, most) = size(random);
    made.study
        .open(echelons, random.below(3))
        .context("a study was refused")?;
    let count = random.below(most).saturating_add(1);
    add_components(random, &mut made, count)?;
    add_resources(random, &mut made)?;
    Ok(made)
}
