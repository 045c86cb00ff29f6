//! The outside: the files that a program reads, the bytes that come in, and where its bytes go.
//!
//! Three traits say what any such object does, whoever stands behind it: `Files`, `Source` and
//! `Sink`. Each counts its faults, and a call answers `Failed` exactly where it counts one more. An
//! object may tell its content, and then each byte that it gives or takes is accounted for. So who
//! sees only a trait knows of each call whether it failed, what it moved, and that nothing else
//! changed. `specs/Counts.antt` has the counts, and `specs/Bytes.antt` what is given and taken.
//!
//! Behind the traits stand memory that fails where it is told to (`MemFiles`, `MemSource`,
//! `MemSink`), memory that never fails (`CalmFiles`, `CalmSource`), a counter (`CountSink`), and the
//! real files and streams (`DiskFiles`, `StreamSource`, `StreamSink`). `read_whole` and
//! `write_whole` make many calls of one. `proofs/Rises.antt` and `proofs/Fronts.antt` have what
//! follows over many calls.
#![tactic(auto)]

mod calls;
mod calm_files;
mod calm_source;
mod copy;
mod count_sink;
mod disk_files;
mod failed;
mod faults;
mod files;
mod mem_files;
mod mem_sink;
mod mem_source;
mod read_error;
mod sink;
mod source;
mod stream_sink;
mod stream_source;
mod whole;

pub use calm_files::CalmFiles;
pub use calm_source::CalmSource;
pub use count_sink::CountSink;
pub use disk_files::DiskFiles;
pub use failed::{Failed, WriteFault};
pub use files::Files;
pub use mem_files::MemFiles;
pub use mem_sink::MemSink;
pub use mem_source::MemSource;
pub use read_error::ReadError;
pub use sink::Sink;
pub use source::Source;
pub use stream_sink::StreamSink;
pub use stream_source::StreamSource;
pub use whole::{read_whole, write_whole};
