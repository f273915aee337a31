use host_report::{Line, ReadBack, ReportFault, read_report, report};
use plug_io::MemSink;
use std::alloc::Global;
use std::test::Fail;

// A line of each kind of event, reply and outcome.
const REPORT: &str = "alc 1\n\
thread 1\n\
print \"a \\\"b\\\" \\\\ \\n \\u0009 \\uD800 é \u{1F600}\"\n\
print \"\"\n\
Made 1\n\
thread 2\n\
Exists 1\nNoContext\nUnloading 4294967295\nSet 0\nNoHandle\nInUse\nHeld 2\nDropped\nWeakly 3\n\
Alive 4\nGone 5\nFixed 6\nAlready 7\nFreed\nFreed 1 2 3\nAssembly 4\nValue i4 -2147483648\n\
Value i8 9223372036854775807\nValue n -9223372036854775808\nValue s \"x y\"\nValue null\nValue ref\n\
Void\nNotFound \"A\"\nVersionLow \"A\" 1.2.3.65535\nBadImage cut 0\nBadImage root-signature 7\n\
BadImage absent 0\nNameMismatch \"B\"\nNotCollectible 1\nNoType \"T\"\nNoMethod \"M\"\nNoField \"F\"\n\
Ambiguous \"M\"\nBadMember 0A0000FF\nUnsupported float\nUnsupported not-built\n\
VerifyFault 06000001 12 depth\nVerifyFault 06000001 12 max-stack\nVerifyFault 06000001 12 region\n\
Threw \"N.E\"\nBudget\nEventLimit\nDepth\nHeapFull\nTypeDepth\nStaticLong\n\
thread 3\n\
journal 37\n\
1 1 new P -> Made 1\n\
2 2 new fixed -> Made 2\n\
3 2 new fixed fixed -> Exists 2\n\
4 1 on P \"A b\" image 3 -> Set 1\n\
5 1 on share \"\" share none -> NoContext\n\
6 1 resolving P \"A\" none -> Unloading 1\n\
7 1 resolve \"A\" image 1 -> Set 0\n\
8 1 enter P -> Entered 1 2\n\
9 1 enter-handle h -> EnteredAt 1 2 3 4\n\
10 1 leave 1 -> Left\n\
11 1 lookup 1 \"A\" 0.0.0.0 -> Miss\n\
12 1 lookup 1 \"A\" 1.0.0.0 -> Hit 5\n\
13 1 lookup 1 \"A\" 2.0.0.0 -> Low 6\n\
14 1 ask load 1 \"A\" -> Image 1\n\
15 1 ask default 1 \"A\" -> Foreign 2\n\
16 1 ask resolving 1 \"A\" -> Nothing\n\
17 1 ask resolve 1 \"A\" -> Nothing\n\
18 1 publish 1 \"A\" image 1 -> Bound 1\n\
19 1 publish 1 \"A\" assembly 2 -> Shared 2\n\
20 1 publish 1 \"A\" assembly 3 -> Lost 3\n\
21 1 publish 1 \"A\" assembly 4 -> NotCollectible 4\n\
22 1 place 1 int32[][] -> Placed 1\n\
23 1 place 1 [1]2 -> Placed 1\n\
24 1 place 1 [1]2<string,[3]4<[5]6[],object[][]>[],bool> -> Placed 0\n\
25 1 load-static [1]2 3 i4 -> Value i4 -1\n\
26 1 load-static [1]2 3 i8 -> Value i8 0\n\
27 1 load-static [1]2 3 n -> Value n 1\n\
28 1 load-static [1]2 3 s -> Value s \"\\uDC00\\uD800\"\n\
29 1 load-static [1]2 3 s -> Value null\n\
30 1 store-static [0]3<char,int8,uint8,int16,uint16,uint32,int64,uint64,native,unative> 1 i4 5 -> Stored\n\
31 1 store-static [1]2 3 s \"-> x\" -> Stored\n\
32 1 hold h 1 2 -> Held 3\n\
33 1 drop h -> Dropped\n\
34 1 weak w P -> Weakly 1\n\
35 1 alive w -> Gone 1\n\
36 1 unload P -> Already 1\n\
37 4294967295 collect -> Freed 1 2\n\
end\n";

// Texts, each with the line at which it is refused.
const REFUSED: [(&str, u32); 16] = [
    ("", 1),
    ("alc 9\n", 1),
    ("alc 1", 1),
    ("alc 1\n", 2),
    ("alc 1\nthread 2\n", 2),
    ("alc 1\njournal 00\nend\n", 2),
    ("alc 1\nthread 1\nprint \"\"\nthread 2\n", 4),
    ("alc 1\nthread 1\nprint \"\\u000A\"\nVoid\n", 3),
    ("alc 1\nthread 1\nprint \"\\ud800\"\nVoid\n", 3),
    ("alc 1\nthread 1\nLeft\n", 3),
    ("alc 1\nthread 1\nValue i4 2147483648\n", 3),
    ("alc 1\njournal 1\n2 1 collect -> Freed\nend\n", 3),
    ("alc 1\njournal 1\n1 1 place 1 [0]2 -> Placed 1\nend\n", 3),
    ("alc 1\njournal 1\nend\n", 3),
    ("alc 1\njournal 0\nend", 3),
    ("alc 1\njournal 0\nend\n\n", 4),
];

fn read(alloc: Global, text: &str) -> Result<ReadBack, ReportFault> {
    if text.len() > 10_000 {
        return Err(ReportFault::OutOfMemory);
    }
    read_report(alloc, text.as_bytes())
}

fn refused_line(alloc: Global, text: &str) -> u32 {
    match read(alloc, text) {
        Err(ReportFault::At { line }) => line,
        _ => 0,
    }
}

#[test]
fn texts_are_refused_at_their_lines(rt: HostRuntime) -> Result<(), Fail> {
    for (text, line) in REFUSED {
        assert_eq!(rt; refused_line(rt.alloc(), text), line);
    }
    Ok(())
}

#[test]
fn a_line_of_each_kind_is_read_back(rt: HostRuntime) -> Result<(), Fail> {
    let read = read(rt.alloc(), REPORT)?;
    let mut line = Line::new(rt.alloc())?;
    let mut out = MemSink::new(rt.alloc(), 10_000)?;
    let written = report(&mut line, read.ends.items(), &read.journal, &mut out);
    assert!(rt; written.is_ok());
    assert_eq!(rt; out.written.as_slice(), REPORT.as_bytes());
    Ok(())
}
