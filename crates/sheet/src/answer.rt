// What building and reading a sheet answer.
use normal::Grade;

// "Build and reading answer n, complexity and grade" (document 01, "Refusal numbers").
#[derive(Clone, Copy)]
pub struct Summary {
    pub degree: u32,
    pub complexity: u32,
    pub grade: Grade,
}
