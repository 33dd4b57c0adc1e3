// The number by which a refusal is told.
use fault::Fault;

// The number of the refusal, where there is one.
pub fn refusal<T: Drop>(answer: Result<T, Fault>) -> Option<u8> {
    answer.err().map(|fault| fault.number())
}
