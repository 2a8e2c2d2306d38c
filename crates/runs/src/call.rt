// A call of the package: what it is handed, and its answer once it is made.
use model::component::Needs;
use model::refusal::Refusal;

// The six calls on a study. A solve writes its plan into the place that it is handed, and uses the working list.
#[derive(Drop)]
pub enum Call<B, C> {
    Open {
        echelons: u8,
        resources: u8,
        answer: Option<Result<(), Refusal>>,
    },
    Enter {
        parent: u8,
        needs: Needs,
        rate: u32,
        answer: Option<Result<u8, Refusal>>,
    },
    Require {
        component: u8,
        needs: Needs,
        answer: Option<Result<(), Refusal>>,
    },
    Strike {
        answer: Option<Result<(), Refusal>>,
    },
    Price {
        book: B,
        plan: Vec<u8>,
        answer: Option<Result<C, Refusal>>,
    },
    Solve {
        book: B,
        plan: Vec<u8>,
        working: Vec<C>,
        answer: Option<Result<C, Refusal>>,
    },
}
