//! The outside: where files are read, where bytes are written, and where threads may wait.
//!
//! `Files` and `Sink` are what the crates above ask for. Each stands over the real system, as
//! `DirFiles` and `StdSink`, and in memory, with faults that are known beforehand or none at all.
#![tactic(auto)]

mod devices;
mod gates;
mod reading;
mod writing;

pub use devices::{DirFiles, StdSink};
pub use gates::{Gate, GateStep, OpenGate};
pub use reading::{Files, Found, MemFiles, SureFiles};
pub use writing::{Failed, MemSink, Sink, SureSink};

#[cfg(test)]
mod tests {
    use super::*;
    use std::alloc::{AllocError, Global};
    use std::os::unix::fs::symlink;
    use std::process::Abort;
    use std::test::Fail;
    use std::{env, fs, process, thread};

    type Answer<'a> = Result<&'a [u8], &'static str>;

    fn answer(found: &Found) -> Answer<'_> {
        match found {
            Found::Bytes(bytes) => Ok(bytes.as_slice()),
            Found::Absent => Err("absent"),
            Found::TooLong => Err("too long"),
            Found::Failed => Err("failed"),
            Found::OutOfMemory => Err("out of memory"),
        }
    }

    fn check_reads<F: Files>(
        rt: &impl Abort,
        alloc: Global,
        files: &mut F,
        rows: &[(&str, usize, Answer<'_>)],
    ) {
        for &(path, limit, want) in rows {
            let found = files.read(alloc, path, limit);
            assert_eq!(rt; answer(&found), want, "{path} within {limit}");
        }
    }

    fn check_writes<S: Sink>(rt: &impl Abort, sink: &mut S, rows: &[(&str, Option<usize>)]) {
        for &(piece, want) in rows {
            assert_eq!(rt; sink.write(piece.as_bytes()).ok(), want, "{piece:?}");
        }
    }

    fn some_files(alloc: Global) -> Result<Vec<(String, Vec<u8>)>, AllocError> {
        let mut files = Vec::new(alloc);
        for content in ["one", "twice"] {
            let path = String::from_str(alloc, "a")?;
            files.push((path, content.as_bytes().to_vec(alloc)?))?;
        }
        Ok(files)
    }

    #[test]
    fn devices_in_memory(rt: HostRuntime) -> Result<(), Fail> {
        let alloc = rt.alloc();
        let rows = [("a", 3, Ok(b"one".as_slice())), ("a", 3, Err("failed"))];
        let mut files = MemFiles {
            held: some_files(alloc)?,
            fail_at: [2].to_vec(alloc)?,
            calls: 0,
            faults: 0,
        };
        check_reads(&rt, alloc, &mut files, &rows);
        let mut files = SureFiles {
            held: some_files(alloc)?,
        };
        check_reads(&rt, alloc, &mut files, &rows[..1]);
        let mut sink = MemSink::new(alloc, 4)?;
        check_writes(
            &rt,
            &mut sink,
            &[("abc", Some(3)), ("def", Some(1)), ("g", None)],
        );
        assert_eq!(rt; sink.written.as_slice(), b"abcd".as_slice());
        check_writes(&rt, &mut SureSink, &[("abc", Some(3))]);
        Ok(())
    }

    #[test]
    fn files_of_the_system(rt: HostRuntime) -> Result<(), Fail> {
        let alloc = rt.alloc();
        let name = format!(in alloc; "plug_io-{}", process::id(rt.process()))?;
        let folder = env::temp_dir(&rt)?;
        let path = folder.join(alloc, name.as_str())?;
        let path = path.as_str();
        let below = format!(in alloc; "{path}/below")?;
        let link = format!(in alloc; "{path}.link")?;
        let long = vec![in alloc; b'x'; 70_000]?;
        let mut files = DirFiles { rt, faults: 0 };
        check_reads(&rt, alloc, &mut files, &[(path, 9, Err("absent"))]);
        fs::write(&rt, path, long.as_slice())?;
        symlink(&rt, link.as_str(), link.as_str())?;
        let rows = [
            (path, usize::MAX, Ok(long.as_slice())),
            (path, 70_000, Ok(long.as_slice())),
            (path, 69_999, Err("too long")),
            (below.as_str(), 9, Err("absent")),
            (link.as_str(), 9, Err("failed")),
            (folder.as_str(), 9, Err("failed")),
        ];
        check_reads(&rt, alloc, &mut files, &rows);
        assert_eq!(rt; files.faults, 2);
        fs::remove_file(&rt, link.as_str())?;
        fs::remove_file(&rt, path)?;
        Ok(())
    }

    #[test]
    fn standard_output(rt: HostRuntime) {
        let mut sink = StdSink { rt, faults: 0 };
        check_writes(&rt, &mut sink, &[("one line\n", Some(9)), ("", Some(0))]);
        assert_eq!(rt; sink.faults, 0);
    }

    #[test]
    fn a_gate_that_threads_share(rt: HostRuntime) {
        let gate = OpenGate;
        let moved = OpenGate;
        thread::join(
            &rt,
            || gate.pass(&rt, 1, GateStep::Command(1)),
            move || moved.pass(&rt, 2, GateStep::Publish),
        );
    }
}
