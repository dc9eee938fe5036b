use crate::answer::Answer;
use crate::fault::Fault;

/// What the cases of one subject call, on what the calls before them made. Calls that start threads
/// cannot be made so: a method of an `impl` may send nothing to a thread that rests on the bounds of
/// that `impl`. Their subjects go over the lines themselves (`add_case`, `add_answer`).
pub trait Subject {
    /// Makes the call of the line and adds its answer to the text, in one line or more; the last may
    /// lack its line feed. `false` where the line is no call.
    fn answer(&mut self, rt: &HostRuntime, call: &str, text: &mut Answer) -> Result<bool, Fault>;
}
