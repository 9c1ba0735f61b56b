// What the paper says of sample numbers (document 01, "Sample numbers"): no function is here. The code is `samples`.
#![tactic(auto)]

use answers::Made;

// What converting one number gives.
#[derive(Clone, Copy)]
pub struct Converted {
    pub answer: Made,
    pub value: i64,
}
