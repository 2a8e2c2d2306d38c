// The worked figures, proved from the definitions.
#![tactic(auto)]

ghost use Rattle.cases.specs.Figures.{FiguresFollow};

// Every worked figure of the list follows from the definitions that the contracts cite.
#[tactic(auto, unfolding(solutions::specs::Solved::assignments, solutions::specs::Solved::least_plan))]
pub fn worked_figures()
    ensures { FiguresFollow }
{}

#[cfg(test)]
mod tests {
    use model::component::Needs;
    use model::refusal::Refusal;
    use model::study::Study;
    use planning::decision::decision;
    use std::test::Fail;

    // What a component of that rate is answered in a blank study.
    fn rated(rt: HostRuntime, rate: u32) -> Result<Result<u8, Refusal>, Fail> {
        let mut study = Study::blank(rt.alloc())?;
        let needs = Needs {
            discard: 0,
            repair: 0,
            moving: 0,
        };
        Ok(study.enter(255, needs, rate))
    }

    #[test]
    fn rates_have_limits(rt: HostRuntime) -> Result<(), Fail> {
        assert_eq!(rt; rated(rt, 0)?, Err(Refusal::RateOutOfRange));
        assert_eq!(rt; rated(rt, 1)?, Ok(0));
        assert_eq!(rt; rated(rt, 1_000_000)?, Ok(0));
        assert_eq!(rt; rated(rt, 1_000_001)?, Err(Refusal::RateOutOfRange));
        Ok(())
    }

    #[test]
    fn pairs_have_limits(rt: HostRuntime) -> Result<(), Fail> {
        let mut study = Study::blank(rt.alloc())?;
        assert_eq!(rt; study.open(3, 5), Ok(()));
        assert_eq!(rt; study.open(3, 6), Err(Refusal::ResourceCount));
        assert_eq!(rt; study.echelons(), 3);
        assert_eq!(rt; study.resources(), 5);
        Ok(())
    }

    #[test]
    fn bytes_decide(rt: HostRuntime) {
        assert_eq!(rt; decision(0), None);
        assert_eq!(rt; decision(1), Some((1, 0)));
        assert_eq!(rt; decision(8), Some((4, 1)));
        assert_eq!(rt; decision(9), None);
    }
}
