use crate::{Command, SRule, Script, ScriptFault, read_script};
use soc_base::MOST_FILE_BYTES;
use std::alloc::{AllocError, Global};
use std::test::Fail;

/// The script that bytes are, where there is room for so many commands.
fn read(alloc: Global, bytes: &[u8], room: u16) -> Result<Script, ScriptFault> {
    if bytes.len() > MOST_FILE_BYTES {
        return Err(ScriptFault::NoMemory);
    }
    read_script(alloc, bytes, room)
}

/// The commands of a script as one text: `NAME@CYCLE`, `-J@CYCLE` for a stop, `<CYCLE` for a promise,
/// and a space after each.
fn told(alloc: Global, script: &Script) -> Result<String, Fail> {
    let mut text = String::new(alloc);
    for command in script.commands.as_slice() {
        let one = match command {
            Command::Load { name, cycle } => format!(in alloc; "{}@{} ", name.as_str(), cycle)?,
            Command::Stop { load, cycle } => format!(in alloc; "-{}@{} ", load, cycle)?,
            Command::Until { cycle } => format!(in alloc; "<{} ", cycle)?,
        };
        text.push_str(&one)?;
    }
    Ok(text)
}

/// The line that loads a name of so many bytes.
fn line_with_name(alloc: Global, len: usize) -> Result<Vec<u8>, AllocError> {
    let mut text = Vec::new(alloc);
    text.extend_from_slice(b"load ")?;
    for _ in 0..len {
        text.push(b'n')?;
    }
    text.extend_from_slice(b" at 5\n")?;
    Ok(text)
}

/// So many lines with a command, and a last line.
fn lines(alloc: Global, count: usize, last: &[u8]) -> Result<Vec<u8>, AllocError> {
    let mut text = Vec::new(alloc);
    for _ in 0..count {
        text.extend_from_slice(b"load a at 5\n")?;
    }
    text.extend_from_slice(last)?;
    Ok(text)
}

#[test]
fn reads_commands(rt: HostRuntime) -> Result<(), Fail> {
    let alloc = rt.alloc();
    let cases: [(&[u8], &str); 23] = [
        (b"", ""),
        (b"\n", ""),
        (b"\r\n\n", ""),
        (b" \t \n", ""),
        (b"# note", ""),
        (b" \t# load a at 5\n", ""),
        (b"#load a at 5", ""),
        (b"load a.toml at 5", "a.toml@5 "),
        (b"load a.toml at 5\n", "a.toml@5 "),
        (b"\tload \t a.toml  at\t5  \r\n", "a.toml@5 "),
        (
            b"load Az/09._- at 0000001000000000000",
            "Az/09._-@1000000000000 ",
        ),
        (b"load a at 0\n\n", "a@0 "),
        (b"load load at 9\nload at at 7", "load@9 at@7 "),
        (b"load a at 5\r\n\r\n# x\r\nload b at 4\r\n", "a@5 b@4 "),
        (b"load stop at 1\nload until at 2", "stop@1 until@2 "),
        (b"stop 1 at 0", "-1@0 "),
        (b"stop 256 at 1000000000000\r\n", "-256@1000000000000 "),
        (b"stop 0001 at 0", "-1@0 "),
        (b" stop\t007  at \t 09\t\n", "-7@9 "),
        (b"until 0", "<0 "),
        (b"until 1000000000000\n", "<1000000000000 "),
        (b"\tuntil\t0000005 \r\n", "<5 "),
        (
            b"load a at 5\nstop 1 at 9\n# x\nuntil 20\nstop 2 at 30\n",
            "a@5 -1@9 <20 -2@30 ",
        ),
    ];
    for (bytes, want) in cases {
        let script = read(alloc, bytes, 256)?;
        let text = told(alloc, &script)?;
        assert_eq!(rt; text.as_str(), want, "{bytes:?}");
    }
    Ok(())
}

#[test]
fn refuses_the_first_line_that_breaks_a_rule(rt: HostRuntime) {
    let cases: [(&[u8], u32, SRule); 66] = [
        (b"run a.toml at 5", 1, SRule::S1),
        (b"LOAD a.toml at 5", 1, SRule::S1),
        (b"load a.toml AT 5", 1, SRule::S1),
        (b"load a.toml at", 1, SRule::S1),
        (b"load a.toml at 5 6", 1, SRule::S1),
        (b"load a.toml at 5 # note", 1, SRule::S1),
        (b"loada.toml at 5", 1, SRule::S1),
        (b"load a.toml\rat 5", 1, SRule::S1),
        (b"stop", 1, SRule::S1),
        (b"stop 1", 1, SRule::S1),
        (b"stop 1 at", 1, SRule::S1),
        (b"stop 1 5", 1, SRule::S1),
        (b"stop at 5", 1, SRule::S1),
        (b"stop 1 on 5", 1, SRule::S1),
        (b"stop 1 at 5 6", 1, SRule::S1),
        (b"STOP 1 at 5", 1, SRule::S1),
        (b"stop 1 At 5", 1, SRule::S1),
        (b"stop1 at 5", 1, SRule::S1),
        (b"stop x AT x", 1, SRule::S1),
        (b"until", 1, SRule::S1),
        (b"until 5 6", 1, SRule::S1),
        (b"until 5 # note", 1, SRule::S1),
        (b"until at 5", 1, SRule::S1),
        (b"until 1 at 5", 1, SRule::S1),
        (b"Until 5", 1, SRule::S1),
        (b"until5", 1, SRule::S1),
        (b"\0load a.toml at 5", 1, SRule::S1),
        (b"\0", 1, SRule::S1),
        (b"\xc2\xa0", 1, SRule::S1),
        (b"load a\0b at 5", 1, SRule::S2),
        (b"load a,b at 5", 1, SRule::S2),
        (b"load a:b at 5", 1, SRule::S2),
        (b"load a@b at 5", 1, SRule::S2),
        (b"load a[b at 5", 1, SRule::S2),
        (b"load a`b at 5", 1, SRule::S2),
        (b"load a{b at 5", 1, SRule::S2),
        (b"load \xc3\xa9 at 5", 1, SRule::S2),
        (b"load a,b at x", 1, SRule::S2),
        (b"stop 0 at 5", 1, SRule::S3),
        (b"stop 000 at 5", 1, SRule::S3),
        (b"stop 257 at 5", 1, SRule::S3),
        (b"stop 65537 at 5", 1, SRule::S3),
        (b"stop x at 5", 1, SRule::S3),
        (b"stop -1 at 5", 1, SRule::S3),
        (b"stop 1. at 5", 1, SRule::S3),
        (b"stop 1 at x", 1, SRule::S3),
        (b"stop 1 at 1000000000001", 1, SRule::S3),
        (b"stop 1 at -1", 1, SRule::S3),
        (b"until -1", 1, SRule::S3),
        (b"until x", 1, SRule::S3),
        (b"until 1000000000001", 1, SRule::S3),
        (b"until 99999999999999999999999", 1, SRule::S3),
        (b"until 5\r\r\n", 1, SRule::S3),
        (b"load a at 5\0", 1, SRule::S3),
        (b"load a at #5", 1, SRule::S3),
        (b"load a at -5", 1, SRule::S3),
        (b"load a at 0x5", 1, SRule::S3),
        (b"load a at 1000000000001", 1, SRule::S3),
        (b"load a at 5\r\r\n", 1, SRule::S3),
        (b"load a at x\nrun", 1, SRule::S3),
        (b"load a at 5\nload a at\n", 2, SRule::S1),
        (b"load a at 5\r\nrun\r\n", 2, SRule::S1),
        (b"\n\n# note\n  \t\nload a b 5", 5, SRule::S1),
        (b"load a at 5\nload b at 6\nload # at 7\nrun", 3, SRule::S2),
        (
            b"until 5\nstop 1 at 6\nuntil x\nload # at 5\nrun",
            3,
            SRule::S3,
        ),
        (b"stop 1 at 6\nload # at 5\nstop 0 at 5", 2, SRule::S2),
    ];
    for (bytes, number, rule) in cases {
        match read(rt.alloc(), bytes, 256) {
            Ok(_) => assert!(rt; false, "{bytes:?}"),
            Err(fault) => assert_eq!(rt; fault, ScriptFault::Line(number, rule), "{bytes:?}"),
        }
    }
}

#[test]
fn bounds_names(rt: HostRuntime) -> Result<(), Fail> {
    let cases = [
        (1, None),
        (200, None),
        (201, Some(ScriptFault::Line(1, SRule::S2))),
    ];
    for (len, want) in cases {
        let text = line_with_name(rt.alloc(), len)?;
        assert_eq!(rt; read(rt.alloc(), &text, 256).err(), want, "{len}");
    }
    Ok(())
}

#[test]
fn bounds_commands(rt: HostRuntime) -> Result<(), Fail> {
    let cases: [(usize, &[u8], u16, Option<ScriptFault>); 12] = [
        (256, b"", 256, None),
        (256, b"# note\n\n", 256, None),
        (257, b"", 256, Some(ScriptFault::TooMany)),
        (257, b"run", 256, Some(ScriptFault::Line(258, SRule::S1))),
        (255, b"until 5", 256, None),
        (256, b"stop 1 at 5", 256, Some(ScriptFault::TooMany)),
        (256, b"until 5", 256, Some(ScriptFault::TooMany)),
        (
            256,
            b"until 5\nstop 257 at 5",
            256,
            Some(ScriptFault::Line(258, SRule::S3)),
        ),
        (0, b"", 0, None),
        (0, b"# note", 0, None),
        (1, b"", 0, Some(ScriptFault::TooMany)),
        (1, b"load b at x", 0, Some(ScriptFault::Line(2, SRule::S3))),
    ];
    for (count, last, room, want) in cases {
        let text = lines(rt.alloc(), count, last)?;
        assert_eq!(rt;
            read(rt.alloc(), &text, room).err(),
            want,
            "{count} {last:?}"
        );
    }
    Ok(())
}
