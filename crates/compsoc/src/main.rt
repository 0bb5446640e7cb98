//! `compsoc`: an emulator of a composable multiprocessor. Everything that it does is `soc_top`'s call;
//! here stand the real files, standard output and the words of the command line.
#![tactic(auto)]

use soc_base::Words;
use soc_io::{HostFiles, HostSink};
use std::alloc::Global;
use std::env;
use std::process::ExitCode;
use std::rt::Env;
use tile_workers::Free;

/// The status where the words of the command line can't be had.
const NO_WORDS: u8 = 9;

// The words of the command line, without the program's name; none where the runtime refuses them or
// there is no memory for them.
fn command_words<R: Env + AllocGlobal>(rt: &R) -> Option<Words> {
    let Ok(args) = env::args(rt) else {
        return None;
    };
    let mut words = Words::new(rt.alloc());
    for word in args.skip(1) {
        if words.add(word.as_str()).is_err() {
            return None;
        }
    }
    Some(words)
}

fn main(rt: HostRuntime) -> ExitCode {
    let Some(words) = command_words(&rt) else {
        return ExitCode::from(NO_WORDS);
    };
    let mut files = HostFiles::new(&rt);
    let mut sink = HostSink::new(&rt);
    ExitCode::from(soc_top::compsoc(&rt, rt.alloc(), &words, &mut files, &mut sink, &Free))
}
