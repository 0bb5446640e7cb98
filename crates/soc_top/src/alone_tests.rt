//! The command `alone`: traces of one application, and its refusals.

use crate::tests::{File, PLATFORM, Row, SEVEN, add, bundle, expect};
use std::alloc::Global;
use std::test::Fail;

#[test]
fn traces_of_one_application(rt: HostRuntime) -> Result<(), Fail> {
    let alloc = rt.alloc();
    // Rows of the trace, kinds, cycles, and text.
    let cases = [
        (
            16,
            "\"word\"",
            "1 384",
            "alone a.toml from 8 to 384\n333 0 word 00000007\npart 0 halt 00000000 at 334 cut 0\nend\n",
        ),
        (
            16,
            "\"word\"",
            "0 72",
            "alone a.toml from 0 to 72\npart 0 live cut 0\nend\n",
        ),
        (
            16,
            "\"word\"",
            "296 640",
            "alone a.toml from 296 to 640\n589 0 word 00000007\npart 0 halt 00000000 at 590 cut 0\nend\n",
        ),
        (
            16,
            "\"word\"",
            "16 8",
            "alone a.toml from 16 to 16\npart 0 live cut 0\nend\n",
        ),
        (
            16,
            "\"word\"",
            "000 0001000000000000",
            "alone a.toml from 0 to 1000000000000\n77 0 word 00000007\npart 0 halt 00000000 at 78 cut 0\nend\n",
        ),
        (
            16,
            "\"word\"",
            "1000000000000 1000000000000",
            "alone a.toml from 1000000000000 to 1000000000000\npart 0 live cut 0\nend\n",
        ),
        (
            0,
            "\"word\"",
            "0 384",
            "alone a.toml from 0 to 384\npart 0 halt 00000000 at 78 cut 1\nend\n",
        ),
        (
            16,
            "\"word\", \"step\"",
            "0 384",
            "alone a.toml from 0 to 384\n72 0 step 00000000\n73 0 step 00000004\n77 0 word 00000007\n77 0 step 00000008\n78 0 step 0000000c\npart 0 halt 00000000 at 78 cut 0\nend\n",
        ),
    ];
    for (trace, kinds, cycles, text) in cases {
        let mut shelf = Vec::new(alloc);
        add(alloc, &mut shelf, "one.toml", PLATFORM)?;
        let text_of = bundle(alloc, 0, 0, trace, kinds, SEVEN)?;
        add(alloc, &mut shelf, "a.toml", text_of.as_str())?;
        let line = format!(in alloc; "alone one.toml a.toml {cycles}")?;
        expect(&rt, alloc, shelf.as_slice(), (line.as_str(), 0, 0, 0, text))?;
    }
    Ok(())
}

#[test]
fn programs_of_one_part(rt: HostRuntime) -> Result<(), Fail> {
    let alloc = rt.alloc();
    let second = "slots = [1]\nbase = 64\nlen = 64\n";
    let first = "slots = [0]\nbase = 0\nlen = 64\n";
    let long = "slots = [0]\nbase = 0\nlen = 176\n";
    let nops =
        "13000000130000001300000013000000130000001300000013000000130000001300000013000000130000001300000013000000130000001300000013000000130000001300000013000000130000001300000013000000130000001300000013000000130000001300000013000000130000001300000013000000130000001300000013000000130000001300000013000000";
    let divides = format!(in alloc; "370300809302400693037000{nops}33c472022320830073000000")?;
    let cases = [
        // A division that begins at 112 has 18 cycles left at 127 and ends at 345.
        (
            long,
            "word",
            divides.as_str(),
            "0 512",
            "0 to 512\n349 0 word 0000000e\npart 0 halt 00000000 at 350 cut 0\n",
        ),
        (
            second,
            "word",
            "1300000000000000",
            "0 384",
            "0 to 384\npart 0 fault illegal at 201 cut 0\n",
        ),
        (
            second,
            "step",
            "8322000073000000",
            "0 384",
            "0 to 384\n201 0 step 00000000\n202 0 step 00000004\npart 0 halt 00000000 at 202 cut 0\n",
        ),
        (
            first,
            "step",
            "83222000",
            "0 384",
            "0 to 384\npart 0 fault align at 73 cut 0\n",
        ),
        // A store that changes an instruction ahead to ECALL.
        (
            first,
            "word",
            "93025005b733070093033007232a700013053000130000001305400073000000",
            "0 384",
            "0 to 384\npart 0 halt 00000003 at 78 cut 0\n",
        ),
        // CYCLEH and CYCLE.
        (
            first,
            "word",
            "37030080832283008323430023205300232073001385030073000000",
            "0 384",
            "0 to 384\n84 0 word 00000000\n88 0 word 00000050\npart 0 halt 00000050 at 90 cut 0\n",
        ),
        (
            first,
            "word",
            "37030080832283008323430023205300232073001385030073000000",
            "8589934592 8589934720",
            "8589934592 to 8589934720\n8589934676 0 word 00000002\n8589934680 0 word 00000050\npart 0 halt 00000050 at 8589934682 cut 0\n",
        ),
        // Loads of each width, the region's last byte, and one past it.
        (
            first,
            "word",
            "370300808302800383438003031480038354800383258003232053002320730023208300232093002320b3000346f003830600040000000080ff0182",
            "0 384",
            "0 to 384\n86 0 word ffffff80\n90 0 word 00000080\n94 0 word ffffff80\n98 0 word 0000ff80\n102 0 word 8201ff80\npart 0 fault access at 106 cut 0\n",
        ),
        // A byte to a device register.
        (
            first,
            "word",
            "3703008023000300",
            "0 384",
            "0 to 384\npart 0 fault access at 76 cut 0\n",
        ),
        // Jumps to the last word, past it, and to an odd half word; EBREAK.
        (
            first,
            "word",
            "6700c003",
            "0 384",
            "0 to 384\npart 0 fault illegal at 75 cut 0\n",
        ),
        (
            first,
            "word",
            "67000004",
            "0 384",
            "0 to 384\npart 0 fault fetch at 75 cut 0\n",
        ),
        (
            first,
            "word",
            "67002000",
            "0 384",
            "0 to 384\npart 0 fault target at 74 cut 0\n",
        ),
        (
            first,
            "word",
            "73001000",
            "0 384",
            "0 to 384\npart 0 fault break at 72 cut 0\n",
        ),
        // Branches, taken twice and then not.
        (
            first,
            "word",
            "930230009382f2ffe39e02fe73000000",
            "0 384",
            "0 to 384\npart 0 halt 00000000 at 83 cut 0\n",
        ),
    ];
    for (region, kind, image, cycles, lines) in cases {
        let mut shelf = Vec::new(alloc);
        add(alloc, &mut shelf, "one.toml", PLATFORM)?;
        let part = format!(in alloc;
            "version = 1\n[[part]]\ntile = 0\nentry = 0\n{region}trace = 16\nkinds = [\"{kind}\"]\nimage = \"{image}\"\n"
        )?;
        add(alloc, &mut shelf, "a.toml", part.as_str())?;
        let line = format!(in alloc; "alone one.toml a.toml {cycles}")?;
        let text = format!(in alloc; "alone a.toml from {lines}end\n")?;
        expect(
            &rt,
            alloc,
            shelf.as_slice(),
            (line.as_str(), 0, 0, 0, text.as_str()),
        )?;
    }
    Ok(())
}

/// Files that are judged or too long, and that break the platform's rule P4 and the bundle's rule B7.
pub fn shelf_of_faults(alloc: Global) -> Result<Vec<File>, Fail> {
    let mut shelf = Vec::new(alloc);
    add(alloc, &mut shelf, "one.toml", PLATFORM)?;
    let a = bundle(alloc, 0, 0, 16, "\"word\"", SEVEN)?;
    add(alloc, &mut shelf, "a.toml", a.as_str())?;
    add(
        alloc,
        &mut shelf,
        "p4.toml",
        "tiles = 33\nmem_bytes = 4096\nslot_cycles = 8\ntable_slots = 8\nkernel_cycles = 72\npartition_cycles = 56\npartition_slots = 2\nports = 2\nqueue = 8\n",
    )?;
    let b7 = bundle(alloc, 0, 8, 16, "", "")?;
    add(alloc, &mut shelf, "b7.toml", b7.as_str())?;
    let long = Vec::from_elem(alloc, b'#', 4_194_305)?;
    shelf.push((String::from_str(alloc, "long.toml")?, long))?;
    Ok(shelf)
}

#[test]
fn refusals_of_alone(rt: HostRuntime) -> Result<(), Fail> {
    let alloc = rt.alloc();
    let cases: [Row<'_>; 21] = [
        ("", 0, 0, 1, "compsoc: usage\n"),
        ("alone one.toml a.toml 1", 0, 0, 1, "compsoc: usage\n"),
        ("alone one.toml a.toml 1 384 5", 0, 0, 1, "compsoc: usage\n"),
        ("follow one.toml a.toml 1 384", 0, 0, 1, "compsoc: usage\n"),
        (
            "alone one.toml a.toml 1 1000000000001",
            0,
            0,
            1,
            "compsoc: usage\n",
        ),
        ("alone one.toml a.toml -1 384", 0, 0, 1, "compsoc: usage\n"),
        ("alone one.toml a.toml 1 3x4", 0, 0, 1, "compsoc: usage\n"),
        (
            "alone no.toml a.toml 1 384",
            0,
            0,
            4,
            "compsoc: absent no.toml\n",
        ),
        (
            "alone one.toml no.toml 1 384",
            0,
            0,
            4,
            "compsoc: absent no.toml\n",
        ),
        // The platform is judged before the bundle is read.
        (
            "alone p4.toml b7.toml 0 8",
            0,
            0,
            2,
            "compsoc: platform P4\n",
        ),
        (
            "alone p4.toml no.toml 0 8",
            0,
            0,
            2,
            "compsoc: platform P4\n",
        ),
        (
            "alone one.toml b7.toml 0 8",
            0,
            0,
            3,
            "compsoc: bundle b7.toml B7\n",
        ),
        (
            "alone long.toml b7.toml 0 8",
            0,
            0,
            2,
            "compsoc: platform P1\n",
        ),
        (
            "alone one.toml long.toml 0 8",
            0,
            0,
            3,
            "compsoc: bundle long.toml B1\n",
        ),
        (
            "alone one.toml a.toml 1 384",
            1,
            0,
            5,
            "compsoc: read one.toml\n",
        ),
        (
            "alone one.toml a.toml 1 384",
            2,
            0,
            5,
            "compsoc: read a.toml\n",
        ),
        ("alone one.toml a.toml 1 384", 0, 1, 6, ""),
        (
            "alone one.toml a.toml 1 384",
            0,
            2,
            6,
            "alone a.toml from 8 to 384\n",
        ),
        (
            "alone one.toml a.toml 1 384",
            0,
            4,
            6,
            "alone a.toml from 8 to 384\n333 0 word 00000007\npart 0 halt 00000000 at 334 cut 0\n",
        ),
        // A failing write of a refusal's line changes no status.
        ("alone one.toml no.toml 1 384", 0, 1, 4, ""),
        ("", 0, 1, 1, ""),
    ];
    let shelf = shelf_of_faults(alloc)?;
    for row in cases {
        expect(&rt, alloc, shelf.as_slice(), row)?;
    }
    Ok(())
}
