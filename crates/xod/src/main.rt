//! The program: it makes the real objects, hands them to a run, and ends with its status.
#![tactic(auto)]

ghost use Rattle.std.specs.Prelude.{◌≡◌, [], IfOk, IfSome, OnErr, codes, is_some, is_ok, map, string_bytes};
ghost use Rattle.xod_shell.specs.Commands.{target_asked};
ghost use Rattle.xod_shell.specs.Endings.{Ends, IsTold, given_to, taken_from};
ghost use Rattle.xod_shell.specs.Runs.{disk_of};
ghost use Rattle.xod_shell.specs.declared.ending.Ending.TheVariants.{NoMemory};
ghost use Rattle.xod_volume_fs.specs.Kept.{folder_of};

use std::alloc::Global;
use std::io::ErrorKind;
use std::process::ExitCode;
use std::rt::Env;
use std::vec::Vec;
use std::{env, io};
use xod_base::Memory;
use xod_io::{Sink, Source, StdSink, StdSource};
use xod_shell::{Ending, Outcome, tell, xod_quiet};
use xod_volume::Volume;
use xod_volume_fs::FolderVolume;

/// The words of the command line behind the program's name.
fn read_words<R: Env + AllocGlobal>(rt: &R) -> io::Result<Vec<String>> {
    let mut words = Vec::new(rt.alloc());
    for word in env::args(rt)?.skip(1) {
        words.push(word)?;
    }
    Ok(words)
}

/// The words of the command line, where there is memory for them. Words that are no text are no command.
fn words<R: Env + AllocGlobal>(rt: &R) -> Result<Vec<String>, Memory> {
    match read_words(rt) {
        Ok(words) => Ok(words),
        Err(error) if error.kind() == ErrorKind::OutOfMemory => Err(Memory),
        Err(_) => Ok(Vec::new(rt.alloc())),
    }
}

/// What a run is handed: the words, and the volume in the folder `xod-store` of the working folder.
fn given(rt: HostRuntime) -> Result<(Vec<String>, FolderVolume<HostRuntime>), Memory>
    ensures folder { IfOk result (λ given. folder_of given.1 ≡ codes "xod-store") }
    ensures leases { IfOk result (λ given. ⟦<FolderVolume<HostRuntime> as Volume>⟧.leases given.1 ≡ []) }
    ensures faults { IfOk result (λ given. ⟦<FolderVolume<HostRuntime> as Volume>⟧.faults given.1 ≡ 0) }
{
    let words = words(&rt)?;
    let volume = FolderVolume::new(rt)?;
    Ok((words, volume))
}

/// A whole run: the status of the top call and the volume behind it, or the status of the ending that is told where there was
/// no memory for the words or the volume.
fn run<S: Source, K: Sink, V: Volume>(
    alloc: Global,
    given: Result<(Vec<String>, V), Memory>,
    input: &mut S,
    out: &mut K,
) -> (u8, Option<V>)
    ensures ends { IfOk given (λ was. IfSome result.1 (λ volume. Ends
        (disk_of V.tells V.files V.faults V.moment V.may_leave was.1 volume)
        (volume ≡ was.1) (target_asked (map (λ word. string_bytes word) was.0.items))
        (taken_from S.left S.faults input.old input.new)
        (given_to K.written K.faults out.old out.new) result.0)) }
    ensures volume { is_some result.1 ≡ is_ok given }
    ensures no_memory { OnErr given (IsTold NoMemory result.0
        (given_to K.written K.faults out.old out.new)) }
    ensures nothing_read { OnErr given (input.new ≡ input.old) }
{
    match given {
        Ok((words, volume)) => {
            let Outcome { status, volume } = xod_quiet(alloc, &words, input, out, volume);
            (status, Some(volume))
        }
        Err(Memory) => (tell(out, &Ending::NoMemory), None),
    }
}

fn main(rt: HostRuntime) -> ExitCode {
    let alloc = rt.alloc();
    let mut input = StdSource::new(rt.stdin());
    let mut out = StdSink::new(rt.stdout());
    let (status, _) = run(alloc, given(rt), &mut input, &mut out);
    ExitCode::from(status)
}
