// A plan that is being priced, beside its study and the survey of the book.
// A byte past its end counts as 0.
use crate::table::Survey;
use model::study::Study;

#[derive(Clone, Copy)]
pub(crate) struct Draft<'a> {
    pub study: &'a Study,
    pub survey: &'a Survey,
    pub plan: &'a [u8],
}
