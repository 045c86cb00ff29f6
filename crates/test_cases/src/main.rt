//! Checks whole programs: each word names a file of cases, and a case has a module and what the commands over it give.
//! `FILE:CASE` names the cases of one name alone. It writes where a case differs, the count of each file, and last
//! `N passed, M failed`; it exits with 1 where one failed.
//!
//! The head of `data/words.test` says how a case is written.
#![tactic(auto)]

use mypyc_top::mypyc;
use mypyc_top_status::Status;
use std::alloc::Global;
use std::process::ExitCode;
use std::{env, fs, io};
use test_cases_files::{Checker, Compiler, Done, Outside};

/// The compiler of this repository.
#[derive(Clone, Copy)]
struct Mypyc;

impl Compiler for Mypyc {
    fn run(&self, alloc: Global, words: &[String], outside: &mut Outside) -> Status {
        let Outside {
            files,
            input,
            out,
            err,
        } = outside;
        mypyc(alloc, words, files, input, out, err)
    }
}

fn main(rt: HostRuntime) -> io::Result<ExitCode> {
    let mut checker = Checker::new(rt.alloc(), Mypyc);
    for word in env::args(&rt)?.skip(1) {
        check_word(&rt, word.as_str(), &mut checker)?;
    }
    let report = &checker.report;
    println!(rt;
        "{}{} passed, {} failed",
        report.said, report.passed, report.failed
    )?;
    Ok(ExitCode::from(u8::from(report.failed > 0)))
}

/// Checks the file that a word names.
fn check_word(rt: &HostRuntime, word: &str, checker: &mut Checker<Mypyc>) -> Done {
    let (file, name) = word.split_once(':').unwrap_or((word, ""));
    let before = checker.report.all();
    match fs::read_to_string(rt, file) {
        Ok(text) => checker.check_file(file, text.as_str(), name)?,
        Err(_) => checker.report.fail(file, 0, "it cannot be read")?,
    }
    checker.report.say_count(file, before)
}
