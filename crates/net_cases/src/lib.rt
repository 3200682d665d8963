//! The calls of the stages behind the lowering, one by one: each with ample memory, on a circuit of ground statements, a net or a code that is
//! made by hand, and its answer. What whole circuits do is asked of the built program, in tests/.
#![tactic(auto)]

#[cfg(test)]
mod cases;
#[cfg(test)]
mod code_cases;
