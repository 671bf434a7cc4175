// The shape check as a function that C and Rust can call.
#![tactic(auto)]

ghost use Rattle.table_c.specs.Told.{Told};

use table::kinds::Node;
use table::shape::check_shape;

// The number of the refusal and the faulty position; both 0 where the batch is accepted.
#[repr(C)]
#[derive(Clone, Copy)]
pub struct Answer {
    pub number: u8,
    pub at: usize,
}

// A fault that names no position is told as one at 0.
#[unsafe(no_mangle)]
pub extern "C" fn table_check_shape(nodes: &[Node]) -> Answer
    ensures { Told nodes.now result }
{
    match check_shape(nodes) {
        Ok(_) => Answer { number: 0, at: 0 },
        Err(fault) => Answer {
            number: fault.number(),
            at: fault.at().unwrap_or(0),
        },
    }
}
