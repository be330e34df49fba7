//! Scripts of several guests, and what they are told in whatever order their calls come.

use crate::common::{
    BASE, CHILD, ask, ask_at, empty_host, ids_of, is_one_of, run_script, script_done,
};
use std::process::Abort;
use vhdx_app::Status;

#[test]
fn reads_by_its_place(rt: HostRuntime) {
    let alloc = rt.alloc();
    let mut host = empty_host(alloc);
    let mut ids = ids_of(&rt, alloc, &[]);
    script_done(&rt, alloc, BASE, "", &mut host, &mut ids);
    let script = "1 write 0 1 aa\n2 read 0 1\n";
    let text = script_done(
        &rt,
        alloc,
        "serve b.vhdx --workers 0",
        script,
        &mut host,
        &mut ids,
    );
    let texts = [
        "1 1 1 write 0 1 aa = done\n2 2 1 read 0 1 = 512*aa\n",
        "1 2 1 read 0 1 = 512*00\n2 1 1 write 0 1 aa = done\n",
    ];
    ask(
        &rt,
        is_one_of(text.bytes.as_slice(), &texts),
        "another order",
    );
    let text = script_done(
        &rt,
        alloc,
        "steps b.vhdx",
        "read 0 2\n",
        &mut host,
        &mut ids,
    );
    let shown = "1 read 0 2 = 512*aa 512*00\n";
    ask(
        &rt,
        is_one_of(text.bytes.as_slice(), &[shown]),
        "another disk",
    );
}

#[test]
fn keeps_the_order_of_each_guest(rt: HostRuntime) {
    let alloc = rt.alloc();
    let mut host = empty_host(alloc);
    let mut ids = ids_of(&rt, alloc, &[]);
    script_done(&rt, alloc, BASE, "", &mut host, &mut ids);
    script_done(&rt, alloc, CHILD, "", &mut host, &mut ids);
    let script = "1 write 0 1 aa\n2 write 4096 1 bb\n1 read 0 1\n2 read 4096 1\n";
    let text = script_done(
        &rt,
        alloc,
        "serve c.vhdx --workers 2",
        script,
        &mut host,
        &mut ids,
    );
    let texts = [
        "1 1 1 write 0 1 aa = done\n2 1 2 read 0 1 = 512*aa\n3 2 1 write 4096 1 bb = done\n4 2 2 read 4096 1 = 512*bb\n",
        "1 1 1 write 0 1 aa = done\n2 2 1 write 4096 1 bb = done\n3 1 2 read 0 1 = 512*aa\n4 2 2 read 4096 1 = 512*bb\n",
        "1 1 1 write 0 1 aa = done\n2 2 1 write 4096 1 bb = done\n3 2 2 read 4096 1 = 512*bb\n4 1 2 read 0 1 = 512*aa\n",
        "1 2 1 write 4096 1 bb = done\n2 1 1 write 0 1 aa = done\n3 1 2 read 0 1 = 512*aa\n4 2 2 read 4096 1 = 512*bb\n",
        "1 2 1 write 4096 1 bb = done\n2 1 1 write 0 1 aa = done\n3 2 2 read 4096 1 = 512*bb\n4 1 2 read 0 1 = 512*aa\n",
        "1 2 1 write 4096 1 bb = done\n2 2 2 read 4096 1 = 512*bb\n3 1 1 write 0 1 aa = done\n4 1 2 read 0 1 = 512*aa\n",
    ];
    ask(
        &rt,
        is_one_of(text.bytes.as_slice(), &texts),
        "another order",
    );
}

#[test]
fn tells_refused_calls_last(rt: HostRuntime) {
    let alloc = rt.alloc();
    let mut host = empty_host(alloc);
    let mut ids = ids_of(&rt, alloc, &[]);
    script_done(&rt, alloc, BASE, "", &mut host, &mut ids);
    let script = "3 read 0 2049\n1 read 0 0\n1 write 2097152 1 aa\n3 flush\n1 write 0 5000 aa\n";
    let text = script_done(
        &rt,
        alloc,
        "serve b.vhdx --workers 64",
        script,
        &mut host,
        &mut ids,
    );
    let told =
        "1 3 2 flush = done\n- 1 1 read 0 0 = refused 31 EmptyRange\n- 1 2 write 2097152 1 aa = refused 32 OutOfRange first 2097152 count 1 sectors 2097152\n- 1 3 write 0 5000 aa = refused 33 TooLong count 5000 limit 2048\n- 3 1 read 0 2049 = refused 33 TooLong count 2049 limit 2048\n";
    ask(
        &rt,
        is_one_of(text.bytes.as_slice(), &[told]),
        "another text",
    );
}

#[test]
fn which_words_and_guests_are_refused(rt: HostRuntime) {
    let alloc = rt.alloc();
    for (line, script, told) in [
        ("serve b.vhdx --workers 3", "", ""),
        (
            "serve b.vhdx --workers 64",
            "64 flush\n",
            "1 64 1 flush = done\n",
        ),
    ] {
        let mut host = empty_host(alloc);
        let mut ids = ids_of(&rt, alloc, &[]);
        script_done(&rt, alloc, BASE, "", &mut host, &mut ids);
        let text = script_done(&rt, alloc, line, script, &mut host, &mut ids);
        ask(&rt, is_one_of(text.bytes.as_slice(), &[told]), line);
    }
    for (line, script, told) in [
        ("serve b.vhdx --workers 65", "1 flush\n", ""),
        ("serve b.vhdx", "1 flush\n", ""),
        (
            "serve b.vhdx --workers 1",
            "1 flush\n65 flush\n",
            "line 2\n",
        ),
        ("serve b.vhdx --workers 1", "0 flush\n", "line 1\n"),
        ("serve b.vhdx --workers 1", "flush\n", "line 1\n"),
        ("serve b.vhdx --workers 1", "1 fetch 0\n", "line 1\n"),
    ] {
        let mut host = empty_host(alloc);
        let mut ids = ids_of(&rt, alloc, &[]);
        script_done(&rt, alloc, BASE, "", &mut host, &mut ids);
        let (status, text) = run_script(&rt, alloc, line, script, &mut host, &mut ids);
        let usage = status == Status::Usage;
        ask(
            &rt,
            usage && is_one_of(text.bytes.as_slice(), &[told]),
            script,
        );
    }
}

// Behind a session the file names no log, and nothing else is found wrong with it.
#[test]
fn leaves_a_clean_file(rt: HostRuntime) {
    let alloc = rt.alloc();
    let mut host = empty_host(alloc);
    let mut ids = ids_of(&rt, alloc, &[]);
    script_done(&rt, alloc, BASE, "", &mut host, &mut ids);
    let script = "1 write 0 1 aa\n2 trim 0 4096\n3 write 65535 2 cc\n1 flush\n";
    script_done(
        &rt,
        alloc,
        "serve b.vhdx --workers 0",
        script,
        &mut host,
        &mut ids,
    );
    let text = script_done(&rt, alloc, "check b.vhdx", "", &mut host, &mut ids);
    ask(
        &rt,
        is_one_of(text.bytes.as_slice(), &["clean\n"]),
        "a finding",
    );
}

// A line of a transcript whose call has this guest, and no other.
fn is_of_guest(line: &str, guest: u64) -> bool {
    let mut words = line.split(' ');
    let place = words.next().is_some();
    place
        && words
            .next()
            .is_some_and(|word| word.parse::<u64>() == Ok(guest))
}

// Each of 64 guests writes a sector of its own and reads it.
#[test]
fn serves_64_guests(rt: HostRuntime) {
    let alloc = rt.alloc();
    let mut script = String::new(alloc);
    for guest in 1..65u64 {
        let lines = format!(in alloc;
            "{guest} write {guest} 1 {guest:02x}\n{guest} read {guest} 1\n"
        );
        let lines = lines.expect(&rt, "no memory");
        script.push_str(&lines).expect(&rt, "no memory");
    }
    let mut host = empty_host(alloc);
    let mut ids = ids_of(&rt, alloc, &[]);
    script_done(&rt, alloc, BASE, "", &mut host, &mut ids);
    let out = script_done(
        &rt,
        alloc,
        "serve b.vhdx --workers 0",
        &script,
        &mut host,
        &mut ids,
    );
    let text = std::str::from_utf8(out.bytes.as_slice()).expect(&rt, "no text");
    for guest in 1..65u64 {
        let read = format!(in alloc; " {guest} 2 read {guest} 1 = 512*{guest:02x}");
        let read = read.expect(&rt, "no memory");
        let mut lines = 0u64;
        let mut found = false;
        for line in text.lines() {
            if is_of_guest(line, guest) {
                lines = lines.saturating_add(1);
                found |= line.ends_with(read.as_str());
            }
        }
        ask_at(&rt, lines == 2 && found, guest);
    }
}
