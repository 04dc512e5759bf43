//! What the real disk keeps and refuses, for one program and the next, what it asks of the file system, and what it makes of a call that fails there.
use crate::calls::call;
use crate::watched::Watched;
use outside_real::RealDisk;
use std::alloc::Alloc;
use std::test::Fail;

// Calls of one program, each with the lines that the file system writes down. The mark is there from the first change to the end of a sync. A
// change of kind flushes all that is unsynced before the old node goes. A file that was removed serves as a new one after the next sync;
// folders stay for the next file, and give way to files.
const SCRIPT: &str = "$
> write store/a written
mkdir /.work
write /.work/unsettled
mkdir /store
write /store/a
> sync store
sync /
sync /store
sync /store/a
rename /.work/settled
> replace store/a replaced
rename /.work/unsettled
remove /.work/new
write /.work/new
sync /.work/new
rename /store/a
> sync store
sync /store
rename /.work/settled
> sync store
> write store/w written
rename /.work/unsettled
write /store/w
> relink store/a relinked
remove /.work/new
write /.work/new
sync /.work/new
mkdir /.links
mkdir /.links/store
rename /.links/store/a
sync /
sync /.links
sync /.links/store
sync /store
sync /store/w
rename /.work/settled
rename /.work/unsettled
rename /.work/spare-0
> write store/b/c/d written
mkdir /store/b
mkdir /store/b/c
write /store/b/c/d
> remove store/b/c/d
rename /.work/spare-1
> write store/b written
rmdir /store/b/c
rmdir /store/b
write /store/b
> sync store
sync /store
sync /store/b
rename /.work/settled
> replace store/b replaced
rename /.work/unsettled
write /.work/spare-1
sync /.work/spare-1
rename /store/b
> write store/e/f written
mkdir /store/e
rename /store/e/f
write /store/e/f
> remove store/e/f
rename /.work/spare-0
> write store/e/f anew
write /store/e/f
> sync store
sync /store
sync /store/e
sync /store/e/f
rename /.work/settled
";

// Rows of a folder each. `$` begins a program, and makes its calls, `&` goes on with it, and `>` does and tells what the file system wrote down too; `~` makes
// calls of a second program. The other lines are what the calls come to. `script` makes the calls above.
const ROWS: &str =
    "# a disk keeps files and links: they are there for the program that put them and the next one; a node is removed once
$ write etc/motd hello;replace etc/motd hello again;relink store/current v1;sync
$ read etc/motd;read_link store/current;list
hello again
v1
2 nodes
$ remove store/current;remove store/current;list
1 nodes

# a disk refuses what is no node
$ symlink away /etc
$ refuse away/passwd;refuse away;refuse .work/new;refuse .links/a;refuse api.sock;sync
refused
refused
refused
refused
refused

# a file takes the place of empty folders, also of those of an earlier program
$ write live/a/b/c 1;write live/a 2;replace live/a 2;remove live/a/b/c
failed
failed
$ write live/a 2;read live/a
2

# one disk at a time is open
$ write etc/motd hello
~ refuse etc/motd;locked
refused
locked out
$
~ read etc/motd;locked
hello

# others may not enter the folder of the lock
$ mkdir .work;enter .work
$ refuse etc/motd;locked
refused

# after the script nothing is left to flush
$ script
$
> sync;list
4 nodes

# what a killed program left is flushed
$ script
$ write store/w unsynced
$
> sync
sync /
sync /.links
sync /.links/store
sync /.links/store/a
sync /store
sync /store/b
sync /store/e
sync /store/e/f
sync /store/w
rename /.work/settled
$
> sync;read store/w
unsynced

# what a killed program left is flushed after a change: a removal counts as one, and the program that follows flushes it with its own
$ script
$ remove store/w
$ replace store/w new;remove store/w;write store/w unsynced
$
> sync
sync /
sync /.links
sync /.links/store
sync /.links/store/a
sync /store
sync /store/b
sync /store/e
sync /store/e/f
sync /store/w
rename /.work/settled

# a mark that is no file can't say anything, and is refused
$ write store/a written;sync
$ mkdir .work/unsettled
$ read store/a;write store/a new;sync
written
failed
failed

# a file that is a spare too is removed: after a crash a spare of an earlier program may be one file with what is in the store
$ replace store/a kept;replace store/b gone;sync
$ hard_link store/a .work/spare-0
$ replace store/c c;remove store/a;read store/a;remove store/b;sync;list
none
1 nodes

# a file with another name is no spare: it is removed as ever, as are files of others than this program
$ replace store/a kept;sync
$ hard_link store/a copy
$ replace store/b b;remove store/a;sync;write store/c c;read copy;read store/c
kept
c

# a shorter text is not followed by the old one, in place and in a spare
$ write store/a longer;write store/a new;read store/a;replace store/b longer;sync;remove store/a;remove store/b;sync
new
& write store/c c;replace store/d d;read store/c;read store/d;sync
c
d
$ read store/c;read store/d;list
c
d
2 nodes

# an empty folder stays to the end
$ write store/a/b/c 1;sync;remove store/a/b/c;sync;list;stat store/a/b;tidy;stat store/a
0 nodes
there
none

# a folder whose sync failed is not asked again
$ write store/a written;write store/b written;fail 2;sync;fail 0;spoil store/a
failed
> read store/a;write store/a new;sync
failed
failed
failed

# a file whose sync failed is written anew: what the system shows of it then isn't trusted
$ write store/a written;write store/b written;fail 3;sync;fail 0;spoil store/a
failed
> read store/a;sync
written
write /store/a
sync /store/a
sync /store/b
rename /.work/settled
";

// Makes the calls of the script on the disk. What they come to: nothing where none fails.
fn script_on(disk: &mut RealDisk<Watched>, watched: &Watched) -> Result<String, Fail> {
    let mut told = String::new(watched.alloc());
    for line in SCRIPT.lines() {
        if let Some(words) = line.strip_prefix("> ") {
            call(disk, watched, &mut told, words)?;
        }
    }
    Ok(told)
}

// Makes each kind of call at the place, and tells whether all are refused.
fn refuse(
    disk: &mut RealDisk<Watched>,
    watched: &Watched,
    told: &mut String,
    place: &str,
) -> Result<(), Fail> {
    let alloc = watched.alloc();
    let mut answers = String::new(alloc);
    for word in ["read", "write", "replace", "list"] {
        let one = format!(in alloc; "{word} {place} no")?;
        call(disk, watched, &mut answers, one.as_str())?;
    }
    let all = answers.as_str() == "failed\nfailed\nfailed\nfailed\n";
    Ok(told.push_str(if all { "refused\n" } else { "not refused\n" })?)
}

// Makes calls on the disk, with `;` between them, or those of the script.
fn calls(
    disk: &mut RealDisk<Watched>,
    watched: &Watched,
    told: &mut String,
    calls: &str,
) -> Result<(), Fail> {
    if calls == "script" {
        return Ok(told.push_str(script_on(disk, watched)?.as_str())?);
    }
    for one in calls.split(';') {
        match one.split_once(' ') {
            Some(("refuse", place)) => refuse(disk, watched, told, place)?,
            _ if one.is_empty() => {}
            _ => call(disk, watched, told, one)?,
        }
    }
    Ok(())
}

// Makes a line of a row, and writes it down with what it comes to; a line that is what one above comes to makes nothing.
fn line(
    disk: &mut RealDisk<Watched>,
    second: &mut RealDisk<Watched>,
    watched: &Watched,
    told: &mut String,
    line: &str,
) -> Result<(), Fail> {
    let (mark, words) = line.split_once(' ').unwrap_or((line, ""));
    if !matches!(mark, "#" | "$" | "&" | ">" | "~") {
        return Ok(());
    }
    writeln!(told, "{line}")?;
    let _ = watched.trace();
    match mark {
        "#" => {}
        "~" => calls(second, watched, told, words)?,
        "$" => {
            *disk = watched.disk()?;
            calls(disk, watched, told, words)?;
        }
        _ => calls(disk, watched, told, words)?,
    }
    if mark == ">" {
        told.push_str(watched.trace().as_str())?;
    }
    Ok(())
}

// What the lines come to in a folder of their own, as they are written if each comes to what is below it.
fn row(rt: &HostRuntime, lines: &str) -> Result<String, Fail> {
    let watched = Watched::new(rt, "row")?;
    let (mut disk, mut second) = (watched.disk()?, watched.disk()?);
    let mut told = String::new(rt.alloc());
    for one in lines.lines() {
        line(&mut disk, &mut second, &watched, &mut told, one)?;
    }
    watched.end()?;
    Ok(told)
}

#[test]
fn each_row_comes_to_what_it_says(rt: HostRuntime) -> Result<(), Fail> {
    for lines in ROWS.split("\n\n") {
        let told = row(&rt, lines)?;
        assert!(rt; told.as_str().trim_end() == lines.trim_end(), "{told}");
    }
    Ok(())
}

#[test]
fn each_call_asks_what_it_should(rt: HostRuntime) -> Result<(), Fail> {
    let told = row(&rt, SCRIPT)?;
    assert!(rt; told.as_str() == SCRIPT, "{told}");
    Ok(())
}

// Whether a call of the script fails where the k-th call to the system does.
fn fails_from(rt: &HostRuntime, k: u64) -> Result<bool, Fail> {
    let watched = Watched::new(rt, "failures")?;
    watched.fail(k);
    let fails = !script_on(&mut watched.disk()?, &watched)?.is_empty();
    watched.end()?;
    Ok(fails)
}

#[test]
fn no_failure_is_passed_over(rt: HostRuntime) -> Result<(), Fail> {
    for k in 0..57u64 {
        assert!(rt; fails_from(&rt, k)? == (1..55).contains(&k), "{k}");
    }
    Ok(())
}
