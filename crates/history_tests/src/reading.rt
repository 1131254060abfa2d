//! The lines of entries read back, and the lines that no entry has.
use crate::errors::Fail;
use entry_reader::{LineError, read_entry};
use history_text::{Entry, Names, write_entry};
use seata_types::{List, NoMemory, Text};
use std::alloc::Global;

/// A line of each kind of cause, act and message.
const LINES: [&str; 83] = [
    "1 net 2 wait 2 | none | -",
    "2 tc 0 turn | asked tc:1 b1 | branch-commit tc:1 b1 AT to A",
    "3 m1 0 turn | starts | begin m1 60000 to tc",
    "4 m1 44 turn | polls | status-ask tc:1 to tc",
    "4 m1 44 turn | repeats | rollback tc:1 to tc",
    "5 tc 0 deliver 4 m1 | begun tc:1 | begun tc:1 to m1",
    "6 m1 0 deliver 5 tc | goes on | call tc:1 c1 to A",
    "7 A 0 deliver 6 m1 | opened tc:1 c1 t1.1 | register tc:1 c1 t1.1 AT hold acc:1 check - to tc",
    "7 A 0 deliver 6 m1 | opened tc:1 c1 t1.1 | register tc:1 c1 t1.1 AT hold acc:2_1;b2:2,4,11 check b2:5_'x,y' to tc",
    "8 tc 0 deliver 7 A | granted tc:1 b1 | granted t1.1 tc:1 b1 to A",
    "9 A 0 deliver 8 tc | committed tc:1 b1 t1.1 | answer tc:1 c1 done b1 to m1",
    "9 B 0 deliver 8 tc | tried tc:1 b1 t1.1 | answer tc:1 c1 busy A.acc:1 t1.4 to m1",
    "11 tc 0 deliver 9 m1 | decided tc:1 rollback | rollback-status tc:1 4 to m1",
    "11 tc 0 turn | decided tc:1 timeout | -",
    "12 tc 0 deliver 9 m1 | told tc:1 8 | commit-status tc:1 8 to m1",
    "13 m1 0 deliver 12 tc | closes 8 | -",
    "14 m1 0 deliver 12 tc | learns 9 | -",
    "15 m1 0 deliver 12 tc | silent | -",
    "16 m1 0 deliver 12 tc | gives up | commit tc:1 to tc",
    "17 m1 0 deliver 12 tc | busy 1 | -",
    "18 tc 0 deliver 17 A | ended tc:1 b1 | status tc:1 9 to m1",
    "19 tc 0 deliver 17 A | retrying tc:1 b1 | -",
    "20 tc 0 turn | retry tc:1 b1 | branch-rollback tc:1 b1 TCC to B",
    "21 tc 0 deliver 20 A | failed tc:1 b1 stmt 2 | -",
    "22 tc 0 turn | finished tc:1 9 | -",
    "23 tc 0 turn | forgot tc:1 | -",
    "24 tc 0 deliver 1 m1 | known tc:1 | begun tc:1 to m1",
    "25 tc 0 deliver 1 A | regranted tc:1 b1 | granted t1.1 tc:1 b1 to A",
    "26 tc 0 deliver 1 A | conflict tc:5 A.acc:1 tc:3 rolling | conflict t1.7 tc:5 A.acc:1 tc:3 rolling to A",
    "27 tc 0 deliver 1 A | conflict tc:5 B.acc:1_'x' tc:3 held | -",
    "28 tc 0 deliver 1 A | closed tc:2 9 | closed t3.1 tc:2 9 to A",
    "29 tc 0 deliver 1 A | late tc:1 | late t1.3 tc:1 to A",
    "30 tc 0 deliver 1 A | held A.acc:1 tc:2 | lock-held t1.1 A.acc:1 tc:2 to A",
    "31 tc 0 deliver 1 A | free | lock-free t1.1 to A",
    "32 A 0 turn | waiting tc:1 c1 | lock-query t1.1 check acc:1 to tc",
    "33 A 0 deliver 1 m1 | again tc:1 c1 b1 | -",
    "34 A 0 deliver 1 m1 | busy tc:1 c1 A.acc:1 t1.2 | -",
    "35 A 0 deliver 1 m1 | refused tc:1 c1 stmt 1 NoTable | answer tc:1 c1 failed stmt 1 NoTable to m1",
    "36 A 0 deliver 1 m1 | refused tc:1 c1 stmt 1 Overflow A.acc:'it''s | - to _' | -",
    "37 A 0 deliver 1 m1 | refused tc:1 c1 stmt 1 Duplicate A.acc:-1_'zz zz'_7_100 | -",
    "38 A 0 deliver 1 m1 | refused tc:1 c1 rolling tc:3 | answer tc:1 c1 failed tries to m1",
    "39 A 0 turn | resent t1.1 | -",
    "40 A 0 deliver 1 tc | conflicted t1.9 1 | -",
    "41 A 0 deliver 1 tc | dropped tc:1 c1 t3.1 closed 9 | answer tc:1 c1 failed closed 9 to m1",
    "42 A 0 deliver 1 tc | dropped tc:1 c1 t3.1 norow 2 | answer tc:1 c1 failed marker to m1",
    "43 A 0 deliver 1 tc | cleared tc:1 b1 | branch-committed tc:1 b1 5 0 to tc",
    "44 A 0 deliver 1 tc | empty tc:1 b1 | -",
    "45 A 0 deliver 1 tc | undone tc:1 b1 | branch-rollbacked tc:1 b1 8 0 to tc",
    "46 A 0 deliver 1 tc | marked tc:1 b1 | -",
    "47 A 0 deliver 1 tc | remarked tc:1 b1 | -",
    "48 A 0 deliver 1 tc | blocked tc:1 b1 A.acc:1 t1.7 | -",
    "49 A 0 deliver 1 tc | dirty tc:1 b1 A.acc:1 (1, 4, 'zz (zz') (1, -5, 'a, b''c') | -",
    "50 A 0 deliver 1 tc | dirty tc:1 b1 A.acc:1 - () | -",
    "51 A 0 deliver 1 tc | confirmed tc:1 b1 | -",
    "52 A 0 deliver 1 tc | cancelled tc:1 b1 | -",
    "53 A 0 deliver 1 tc | suspended tc:1 b1 | -",
    "54 A 0 deliver 1 tc | already tc:1 b1 | -",
    "55 A 0 deliver 1 tc | unfenced tc:1 b1 | -",
    "56 A 0 deliver 1 tc | unable tc:1 b1 stmt 1 KeyChanged | -",
    "57 A 0 local 1 | waiting-local 1 | -",
    "58 A 0 local 1 | refused-local 1 stmt 2 TableFull | -",
    "59 A 0 local 1 | busy-local 1 A.acc:1 t2.7 | -",
    "60 A 0 local 1 | opened-local 1 t1.3 | -",
    "61 A 0 deliver 1 tc | dropped-local 1 t3.1 A.b2:1 tc:2 | -",
    "62 A 0 deliver 1 tc | local-committed 1 t1.1 | -",
    "63 B 0 outside 1 | outside 1 | -",
    "64 m1 0 turn | none | -",
    "65 m1 0 local 1 | ignored | -",
    "66 A 0 turn | lost | -",
    "67 A 0 stop 2 | armed | -",
    "68 A 0 turn | down | -",
    "69 A 0 crash | down | -",
    "70 A 0 restart 3 1 | down kept committed tc:6 b7 t2.1 at boot | -",
    "71 A 0 restart 2 0 | down at outside 7 | -",
    "72 A 0 restart 2 | down kept local-committed 7 t1.2 | -",
    "73 A 0 restart 1 | restarted kept finished tc:1 9 | -",
    "74 A 0 restart 257 | restarted | -",
    "75 A 0 deliver 99 | lost | -",
    "4294967295 A 18446744073709551615 turn | boot | -",
    "1 A 0 turn | held A.acc:-9223372036854775808_9223372036854775807 tc:0 | -",
    "1 A 0 turn | refused-local 65535 late | -",
    "1 A 0 turn | refused-local 65535 fence | -",
    "1 A 0 turn | refused-local 1 stmt 1 TypeMismatch | -",
];

/// What no entry is printed as, with these names.
const NO_LINES: [&str; 62] = [
    "",
    "|",
    "1",
    "1 tc 0 turn",
    "1 tc 0 turn | none",
    "1 tc 0 turn | none |",
    "1 tc 0 turn | none | ",
    "1 tc 0 turn | none | - ",
    " 1 tc 0 turn | none | -",
    "1  tc 0 turn | none | -",
    "1 tc 0 turn  | none | -",
    "1 tc 0 turn|none|-",
    "1 tc 0 turn | none | - | -",
    "1 tc 0 turn | none x | -",
    "1 tc 0 turn | none | none",
    "1 tc 0 turn | - | none",
    "1 tc turn | none | -",
    "tc 1 0 turn | none | -",
    "01 tc 0 turn | none | -",
    "+1 tc 0 turn | none | -",
    "4294967296 tc 0 turn | none | -",
    "1 tc 18446744073709551616 turn | none | -",
    "1 tc 00 turn | none | -",
    "1 C 0 turn | none | -",
    "1 r1 0 turn | none | -",
    "1 m7 0 turn | none | -",
    "1 TC 0 turn | none | -",
    "1 A2 0 turn | none | -",
    "1 m 0 turn | none | -",
    "1 tc 0 Turn | none | -",
    "1 tc 0 deliver | none | -",
    "1 tc 0 deliver 4 C | none | -",
    "1 tc 0 deliver 4 A B | none | -",
    "1 A 0 restart | none | -",
    "1 A 0 restart 65536 | none | -",
    "1 tc 0 turn | begun tc:01 | -",
    "1 tc 0 turn | begun 1 | -",
    "1 tc 0 turn | begun tc:1 b1 | -",
    "1 tc 0 turn | granted b1 tc:1 | -",
    "1 tc 0 turn | finished tc:1 16 | -",
    "1 tc 0 turn | decided tc:1 abort | -",
    "1 m1 0 turn | goes | -",
    "1 m1 0 turn | goes off | -",
    "1 m1 0 turn | wanders | -",
    "1 A 0 turn | resent t1 | -",
    "1 A 0 turn | resent t1.1.1 | -",
    "1 A 0 turn | busy tc:1 c1 A.acc t1.1 | -",
    "1 A 0 turn | busy tc:1 c1 A.acc: t1.1 | -",
    "1 A 0 turn | busy tc:1 c1 A.acc:1_2_3_4_5 t1.1 | -",
    "1 A 0 turn | busy tc:1 c1 C.acc:1 t1.1 | -",
    "1 A 0 turn | busy tc:1 c1 r3.acc:1 t1.1 | -",
    "1 A 0 turn | busy tc:1 c1 A.Acc:1 t1.1 | -",
    "1 A 0 turn | busy tc:1 c1 A.select:1 t1.1 | -",
    "1 A 0 turn | busy tc:1 c1 A.acc:01 t1.1 | -",
    "1 A 0 turn | busy tc:1 c1 A.acc:-0 t1.1 | -",
    "1 A 0 turn | busy tc:1 c1 A.acc:'x t1.1 | -",
    "1 A 0 turn | dirty tc:1 b1 A.acc:1 (1,2) - | -",
    "1 A 0 restart 1 | restarted at boot | -",
    "1 A 0 turn | none | register tc:1 c1 t1.1 AT hold acc:2,1 check - to tc",
    "1 A 0 turn | none | register tc:1 c1 t1.1 AT hold acc:1;acc:2 check - to tc",
    "1 tc 0 turn | none | lock-query t1.1 check acc:1 to tc",
    "1 A 0 turn | none | lock-free t1.1 to C",
];

fn listed(alloc: Global, words: &[&str]) -> Result<List<Text>, NoMemory> {
    let mut names = Vec::new(alloc);
    for word in words {
        let name = String::from_str(alloc, word)?;
        names.push(Text::of(name))?;
    }
    Ok(List::of(names))
}

/// The names of resources and of managers.
pub fn names_of(alloc: Global, resources: &[&str], managers: &[&str]) -> Result<Names, NoMemory> {
    Ok(Names {
        resources: listed(alloc, resources)?,
        managers: listed(alloc, managers)?,
    })
}

fn is_written_as(alloc: Global, entry: &Entry, names: &Names, line: &str) -> bool {
    match write_entry(alloc, entry, names) {
        Ok(text) => text.as_str() == line,
        Err(NoMemory) => false,
    }
}

fn reads_back(alloc: Global, line: &str, names: &Names) -> bool {
    match read_entry(alloc, line, names) {
        Ok(entry) => {
            let same = is_written_as(alloc, &entry, names, line);
            drop(entry);
            same
        }
        Err(_) => false,
    }
}

fn is_refused(alloc: Global, line: &str, names: &Names) -> bool {
    match read_entry(alloc, line, names) {
        Ok(entry) => {
            drop(entry);
            false
        }
        Err(LineError::Refused) => true,
        Err(LineError::NoMemory) => false,
    }
}

fn read_back_each(alloc: Global, names: &Names) -> Result<(), Fail> {
    for line in LINES {
        if !reads_back(alloc, line, names) {
            return Err(Fail::Other(line));
        }
    }
    Ok(())
}

fn refuse_each(alloc: Global, names: &Names) -> Result<(), Fail> {
    for line in NO_LINES {
        if !is_refused(alloc, line, names) {
            return Err(Fail::Other(line));
        }
    }
    Ok(())
}

fn read_each(alloc: Global, names: &Names) -> Result<(), Fail> {
    read_back_each(alloc, names)?;
    refuse_each(alloc, names)
}

fn are_read(alloc: Global) -> Result<(), Fail> {
    let names = names_of(alloc, &["A", "B"], &["m1"])?;
    let read = read_each(alloc, &names);
    drop(names);
    read
}

#[test]
fn reads_each_kind_of_line_and_no_other(rt: HostRuntime) -> Result<(), Fail> {
    are_read(rt.alloc())
}
