//! Running a C text.
//!
//! What comes in are a well-formed code, a number of turns, an input and a sink; what goes out are the program's output,
//! to the sink, and a report: how the run ended, which cells are still there with their counts, and the turns that are
//! left. The promise: it is exactly the run of the machine (`machine_run` of c_core), cells, counts and faults included;
//! `specs/Report.antt` says when a report is that of a run, and `specs/Ran.antt` what a call gives.
//!
//! A step that asks for a line of the input makes no read: it waits, and the run reads the line (`c_runner_lines`) and goes on with it;
//! what is held of the output is handed on before each read.
//!
//! The runner keeps a state of its own (`c_runner_deeds`) and makes the machine's steps one for one: each step leads from the
//! machine's state that the old one stands for to that of the new one. What the primitives do stands in `c_runner_deeds` and
//! `c_runner_objects`; here are the lines, the calls and returns of functions and methods, and the whole run.
#![tactic(auto)]

mod at_once;
mod calls;
mod counts;
mod frames;
mod input;
mod lines;
mod live;
mod methods;
mod pause;
mod reading;
mod refusal;
mod report;
mod runner;
mod start;
mod step;

pub use c_core::Fault;
pub use c_runner_deeds::Ending;
pub use report::{LiveCell, Report, RunError};
pub use runner::run;
