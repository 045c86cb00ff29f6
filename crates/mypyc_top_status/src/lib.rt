//! The status of the command and its line on errors, by what happened: no command, a file that is not read, a C text that is
//! no code, or how a program ended. `specs/Statuses.antt` has the numbers, `specs/ErrorLines.antt` the lines.
#![tactic(auto)]

mod ending;
mod reply;
mod status;
mod writing;

pub use ending::{ProgramEnd, ending_reply};
pub use reply::{
    Output, Reply, ill_formed_reply, large_reply, open_reply, output_reply, read_reply,
    refused_reply, usage_reply,
};
pub use status::{Status, status_number};
pub use writing::{out_of_memory, send_line, write_any};
