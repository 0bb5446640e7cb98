//! Lines of a report, byte for byte.

ghost use Rattle.std.specs.Prelude.{IfOk};
ghost use Rattle.vep_manager.specs.Setup.{IsSound};

use crate::Reporter;
use crate::applications::put_app_line;
use crate::commands::push_reply;
use crate::entries::{entry_back, put_command, put_entry};
use crate::tests::long_name;
use bundle_model::{BRule, Grant, Named, Resource, World};
use platform_model::Platform;
use script_file::{Command, Script};
use soc_base::{Items, Label, Line, Text};
use soc_io::{MemSink, Printer};
use std::alloc::Global;
use std::process::Abort;
use std::test::Fail;
use vep_manager::{Entry, Reply, Setup};

const SLOT_CYCLES: u8 = 8;

fn label(session: u8, load: u16) -> Label {
    Label { session, load }
}

fn taken(resource: Resource, free_from: Option<u64>) -> Reply {
    Reply::Taken {
        resource,
        owner: label(1, 1),
        free_from,
    }
}

// Checks how replies are written.
fn check_replies<A: Abort>(rt: &A, cases: &[(Reply, &str)]) {
    for (reply, text) in cases {
        let mut line = Line::new();
        push_reply(&mut line, SLOT_CYCLES, *reply);
        assert_eq!(rt; line.as_str(), *text);
    }
}

#[test]
fn writes_each_reply(rt: HostRuntime) {
    let granted = Reply::Granted {
        label: label(16, 256),
        start: 1,
    };
    let stopped = Reply::Stopped {
        label: label(2, 1),
        end: 28,
    };
    let cases = [
        (Reply::Malformed(BRule::B1), "malformed B1"),
        (Reply::Malformed(BRule::B7), "malformed B7"),
        (Reply::Malformed(BRule::B14), "malformed B14"),
        (Reply::Past(128), "past 1024"),
        (granted, "granted 16.256 at 8"),
        (Reply::NoLoad, "no load"),
        (Reply::Already(32), "already 256"),
        (stopped, "stopped 2.1 at 224"),
        (Reply::Horizon(128), "horizon 1024"),
    ];
    check_replies(&rt, &cases);
}

#[test]
fn writes_each_resource_that_is_taken(rt: HostRuntime) {
    let span = Resource::Span {
        tile: 0,
        base: 48,
        len: 64,
    };
    let cases = [
        (
            taken(Resource::Partition { tile: 3, slot: 15 }, None),
            "taken partition 3 15 by 1.1 free none",
        ),
        (taken(span, Some(0)), "taken span 0 48 64 by 1.1 free 0"),
        (
            taken(Resource::Port { tile: 31, port: 2 }, Some(1)),
            "taken port 31 2 by 1.1 free 8",
        ),
        (
            taken(Resource::Inject { tile: 1, slot: 7 }, Some(20)),
            "taken inject 1 7 by 1.1 free 160",
        ),
        (
            taken(Resource::LinkSlot { link: 1, slot: 3 }, Some(20)),
            "taken link 1 3 by 1.1 free 160",
        ),
        (
            taken(Resource::Deliver { tile: 2, slot: 0 }, Some(u64::MAX)),
            "taken deliver 2 0 by 1.1 free 147573952589676412920",
        ),
    ];
    check_replies(&rt, &cases);
}

#[test]
fn writes_each_command(rt: HostRuntime) -> Result<(), Fail> {
    let alloc = rt.alloc();
    let name = long_name(alloc)?;
    let long_text = format!(in alloc; "load {name} at 1000000000000: no load\n")?;
    // The command, its text, and the number of the first write after it.
    let cases = [
        (
            Command::Load {
                name: Text::from_str(alloc, "a.toml")?,
                cycle: 1,
            },
            "load a.toml at 1: no load\n",
            2,
        ),
        (
            Command::Load {
                name: Text::from_string(name),
                cycle: 1_000_000_000_000,
            },
            long_text.as_str(),
            4,
        ),
        (
            Command::Stop {
                load: 256,
                cycle: 9,
            },
            "stop 256 at 9: no load\n",
            2,
        ),
        (Command::Until { cycle: 1023 }, "until 1023: no load\n", 2),
    ];
    for (command, text, next) in cases {
        let mut sink = MemSink::new(alloc, 1000, vec![in alloc; next]?)?;
        let mut printer = Printer::new(&mut sink);
        put_command(
            &mut printer,
            Line::new(),
            &command,
            &entry_back(SLOT_CYCLES, Reply::NoLoad),
        );
        printer.put(b"more");
        assert_eq!(rt; printer.finish().is_ok(), false);
        assert_eq!(rt; sink.written(), text.as_bytes());
    }
    Ok(())
}

// A setup with one session that promises twice, and one bundle file of this name, which breaks a rule.
#[tactic(auto, unfolding(vep_manager::specs::Loads::loads_of))]
fn setup_with(alloc: Global, name: Text) -> Result<Setup, Fail>
    ensures { IfOk result IsSound }
{
    let commands = vec![in alloc; Command::Until { cycle: 17 }, Command::Until { cycle: 18 }]?;
    let script = Script {
        commands: Items::from_vec(commands),
    };
    let named = Named {
        name,
        judged: Err(BRule::B4),
    };
    Ok(Setup {
        world: World {
            platform: Platform::plain(alloc)?,
            catalog: Items::from_vec(vec![in alloc; named]?),
        },
        budget: 125,
        scripts: Items::from_vec(vec![in alloc; script]?),
        loads: Items::new(alloc),
    })
}

#[test]
fn writes_entries(rt: HostRuntime) -> Result<(), Fail> {
    let alloc = rt.alloc();
    let setup = setup_with(alloc, Text::from_str(alloc, "a.toml")?)?;
    // Session, number, and what is printed between them and the reply.
    let cases = [
        (1, 1, "command 1 1 until 17: horizon 24\n"),
        (1, 2, "command 1 2 until 18: horizon 24\n"),
        (1, 3, "command 1 3 : horizon 24\n"),
        (1, 0, "command 1 0 : horizon 24\n"),
        (2, 1, "command 2 1 : horizon 24\n"),
    ];
    for (session, index, text) in cases {
        let mut sink = MemSink::new(alloc, 1000, Vec::new(alloc))?;
        let mut printer = Printer::new(&mut sink);
        let entry = Entry {
            session,
            index,
            reply: Reply::Horizon(3),
        };
        put_entry(&mut printer, &setup, &entry);
        assert!(rt; printer.finish().is_ok());
        assert_eq!(rt; sink.written(), text.as_bytes());
    }
    Ok(())
}

#[test]
fn writes_first_lines_of_applications(rt: HostRuntime) -> Result<(), Fail> {
    let alloc = rt.alloc();
    let name = long_name(alloc)?;
    // A grant's start and end, in slots, and the cycles in which it is followed, up to cycle 1000.
    let cases = [
        (1, None, "from 8 to 1000\n"),
        (1, Some(48), "from 8 to 384\n"),
        (1, Some(125), "from 8 to 1000\n"),
        (1, Some(126), "from 8 to 1000\n"),
        (0, Some(0), "from 0 to 0\n"),
        (200, None, "from 1600 to 1600\n"),
        (200, Some(300), "from 1600 to 1600\n"),
    ];
    for (start, end, span) in cases {
        let text = format!(in alloc; "app 16.256 {name} {span}")?;
        let setup = setup_with(alloc, Text::from_str(alloc, name.as_str())?)?;
        let grant = Grant {
            label: label(16, 256),
            bundle: 0,
            start,
            end,
        };
        let mut sink = MemSink::new(alloc, 1000, Vec::new(alloc))?;
        let mut printer = Printer::new(&mut sink);
        put_app_line(&mut printer, &setup, &grant);
        assert!(rt; printer.finish().is_ok());
        assert_eq!(rt; sink.written(), text.as_bytes());
    }
    Ok(())
}

#[test]
fn makes_a_reporter(rt: HostRuntime) -> Result<(), Fail> {
    let alloc = rt.alloc();
    let setup = setup_with(alloc, Text::from_str(alloc, "a.toml")?)?;
    assert!(rt; Reporter::new(alloc, &setup).is_ok());
    Ok(())
}
