//! Lines, tokens, replies, causes and a report as they are written by hand.

use crate::{
    Cause, Command, ParseFault, Reply, ReplyBuf, Report, Why, parse, reply_into, write_command,
    write_reply,
};
use peb_base::{FileName, Key, LimitKind, Number, Profile, Value};
use std::test::Fail;

#[test]
fn a_put_and_a_get(rt: HostRuntime) -> Result<(), Fail> {
    let alloc = rt.alloc();
    let commands = parse(alloc, b"put! a 1\nget a\n")?;
    assert_eq!(rt; commands.len(), 2);
    let Command::Put { key, value, sync } = &commands[0] else {
        return Err("no put")?;
    };
    assert_eq!(rt; key.bytes(), b"a".as_slice());
    assert_eq!(rt; value.bytes(), b"1".as_slice());
    assert!(rt; *sync);
    assert_eq!(rt;
        write_command(alloc, &commands[0])?.as_slice(),
        b"put! a 1\n".as_slice()
    );
    assert_eq!(rt;
        write_command(alloc, &commands[1])?.as_slice(),
        b"get a\n".as_slice()
    );
    assert_eq!(rt; parse(alloc, b"")?.len(), 0);
    Ok(())
}

#[test]
fn tokens_as_they_are_read_and_written(rt: HostRuntime) -> Result<(), Fail> {
    let alloc = rt.alloc();
    let lines = [
        (b"put! a \"\"".as_slice(), b"put! a \"\"\n".as_slice()),
        (
            b"put! %61%20b %00%ff\n".as_slice(),
            b"put! a%20b %00%FF\n".as_slice(),
        ),
        (
            b"put! %22%25 ~!\n".as_slice(),
            b"put! %22%25 ~!\n".as_slice(),
        ),
        (b"get %C3%a9".as_slice(), b"get %C3%A9\n".as_slice()),
    ];
    for (line, again) in lines {
        let commands = parse(alloc, line)?;
        let command = commands.first().ok_or("no command")?;
        assert_eq!(rt; write_command(alloc, command)?.as_slice(), again);
    }
    Ok(())
}

#[test]
fn the_first_refused_line_is_told(rt: HostRuntime) -> Result<(), Fail> {
    let alloc = rt.alloc();
    let scripts = [
        (b"\n".as_slice(), 1),
        (b"get a\n\nget".as_slice(), 2),
        (b"get a\nget b\n# c\n".as_slice(), 3),
        (b"put a 1\n".as_slice(), 1),
        (b"put! a\nget".as_slice(), 1),
        (b"put! a 1 2\n".as_slice(), 1),
        (b"put!  a 1\n".as_slice(), 1),
        (b"get a\nget a \n".as_slice(), 2),
        (b" get a".as_slice(), 1),
        (b"get \"\"".as_slice(), 1),
        (b"get a\"b".as_slice(), 1),
        (b"get %6\n".as_slice(), 1),
        (b"get %6g\n".as_slice(), 1),
        (b"get a\r\n".as_slice(), 1),
        (b"get \xc3\xa9\n".as_slice(), 1),
        (b"put! a \n".as_slice(), 1),
    ];
    for (script, at) in scripts {
        let Err(fault) = parse(alloc, script) else {
            return Err("a refused line was read")?;
        };
        assert_eq!(rt;
            fault,
            ParseFault::Bad {
                line: at,
                why: Why::Command
            },
            "{script:?}"
        );
    }
    Ok(())
}

#[test]
fn keys_and_values_at_their_limits(rt: HostRuntime) -> Result<(), Fail> {
    let alloc = rt.alloc();
    let mut script = b"get ".to_vec(alloc)?;
    script.extend_from_slice(&vec![in alloc; b'k'; 1024]?)?;
    assert_eq!(rt; parse(alloc, &script)?.len(), 1);
    script.push(b'k')?;
    assert!(rt; parse(alloc, &script).is_err());
    let mut script = b"put! a ".to_vec(alloc)?;
    script.extend_from_slice(&vec![in alloc; b'v'; 32768]?)?;
    assert_eq!(rt; parse(alloc, &script)?.len(), 1);
    script.push(b'v')?;
    assert!(rt; parse(alloc, &script).is_err());
    Ok(())
}

#[test]
fn an_unsynced_put_is_written_so(rt: HostRuntime) -> Result<(), Fail> {
    let alloc = rt.alloc();
    let command = Command::Put {
        key: Key::new(alloc, b"a b")?,
        value: Value::new(alloc, b"")?,
        sync: false,
    };
    assert_eq!(rt;
        write_command(alloc, &command)?.as_slice(),
        b"put a%20b \"\"\n".as_slice()
    );
    Ok(())
}

#[test]
fn replies_as_they_are_written(rt: HostRuntime) -> Result<(), Fail> {
    let alloc = rt.alloc();
    let n = Number::new(3, 12);
    let replies = [
        (Reply::Written(n), b"3.12 written\n".as_slice()),
        (Reply::Synced(n), b"3.12 synced\n".as_slice()),
        (
            Reply::UnsyncedFault(n),
            b"3.12 unsynced fault journal\n".as_slice(),
        ),
        (Reply::Stopped, b"stopped\n".as_slice()),
        (
            Reply::Limit(LimitKind::Tail, 2_147_483_648),
            b"limit tail 2147483648\n".as_slice(),
        ),
        (Reply::Memory, b"memory\n".as_slice()),
        (Reply::Value(n, b"1 %"), b"3.12 value 1%20%25\n".as_slice()),
        (Reply::Value(n, b""), b"3.12 value \"\"\n".as_slice()),
        (Reply::Nothing(Number::new(0, 0)), b"0.0 none\n".as_slice()),
    ];
    let mut out = ReplyBuf::new(alloc)?;
    for (reply, line) in &replies {
        reply_into(reply, &mut out);
        assert_eq!(rt; out.bytes(), *line);
        assert_eq!(rt; write_reply(alloc, reply)?.as_slice(), *line);
    }
    Ok(())
}

#[test]
fn causes_and_their_statuses(rt: HostRuntime) -> Result<(), Fail> {
    let alloc = rt.alloc();
    let causes = [
        (Cause::Done, 0, b"".as_slice()),
        (Cause::Usage, 2, b"usage\n".as_slice()),
        (
            Cause::Script(1, 20, Why::Command),
            3,
            b"script 1 line 20 command\n".as_slice(),
        ),
        (Cause::Journal, 4, b"journal\n".as_slice()),
        (
            Cause::Damaged(FileName::Log(1), 24),
            6,
            b"damaged log-1 24\n".as_slice(),
        ),
        (Cause::Memory, 7, b"memory\n".as_slice()),
        (
            Cause::Limit(LimitKind::Script, 16_777_216),
            8,
            b"limit script 16777216\n".as_slice(),
        ),
        (Cause::Sink(0), 9, b"sink 0\n".as_slice()),
        (Cause::Source(1), 10, b"source 1\n".as_slice()),
        (
            Cause::Profile(Profile::Normal, Profile::Small),
            11,
            b"profile normal small\n".as_slice(),
        ),
    ];
    for (cause, status, line) in causes {
        assert_eq!(rt; cause.status(), status);
        assert_eq!(rt; cause.line(alloc)?.as_slice(), line);
    }
    Ok(())
}

#[test]
fn a_report_of_levels_0_to_3(rt: HostRuntime) -> Result<(), Fail> {
    let report = Report {
        last: Number::new(1, 1),
        last_level: 3,
    };
    let text = b"last 1.1
level 0 tables 0 entries 0 bytes 0 cuts 0 short 0 lost 0
level 1 tables 0 entries 0 bytes 0 cuts 0 short 0 lost 0
level 2 tables 0 entries 0 bytes 0 cuts 0 short 0 lost 0
level 3 tables 0 entries 0 bytes 0 cuts 0 short 0 lost 0
";
    assert_eq!(rt; report.text(rt.alloc())?.as_slice(), text.as_slice());
    Ok(())
}
