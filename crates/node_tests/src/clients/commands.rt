//! Commands as `redis-cli`, `redis-benchmark` and Python's library send them. What they ask for is compared as it is
//! printed for debugging, which names all its parts.
use super::samples::{assert_asks, frame_of};
use crate::checks::frame_in;

/// What a client sends, and what it asks for.
static SENT: [(&[u8], &str); 11] = [
    (
        b"*2\r\n$3\r\nGET\r\n$5\r\nmykey\r\n",
        "Ok(Read { wanted: Value, name: b\"mykey\" })",
    ),
    (
        b"*2\r\n$3\r\ngEt\r\n$0\r\n\r\n",
        "Ok(Read { wanted: Value, name: b\"\" })",
    ),
    (
        b"*3\r\n$3\r\nSET\r\n$5\r\nmykey\r\n$6\r\na\r\n\x00\xffz\r\n",
        "Ok(Set { name: b\"mykey\", value: b\"a\\r\\n\\0\\xffz\" })",
    ),
    (
        b"*3\r\n$3\r\nset\r\n$9\r\n\xc3\xa9\r\n name\r\n$0\r\n\r\n",
        "Ok(Set { name: b\"\\xc3\\xa9\\r\\n name\", value: b\"\" })",
    ),
    (b"*1\r\n$4\r\nPING\r\n", "Ok(Ping(None))"),
    (
        b"*2\r\n$4\r\nPING\r\n$11\r\nhello world\r\n",
        "Ok(Ping(Some(b\"hello world\")))",
    ),
    (
        b"*2\r\n$4\r\nECHO\r\n$12\r\nHello World!\r\n",
        "Ok(Echo(b\"Hello World!\"))",
    ),
    (
        b"*1\r\n$4\r\nINFO\r\n",
        "Ok(Info(Sections { server: true, clients: true, memory: true, persistence: true, \
            stats: true, replication: true, cluster: true, keyspace: true, node: true }))",
    ),
    // What `redis-cli` sends when it starts.
    (b"*2\r\n$7\r\nCOMMAND\r\n$4\r\nDOCS\r\n", "Ok(ListCommands)"),
    (
        b"*7\r\n$4\r\nMOVE\r\n$5\r\nphoto\r\n$1\r\n2\r\n$1\r\n7\r\n$1\r\n0\r\n$3\r\n255\r\n$2\r\n10\r\n",
        "Ok(Move { name: b\"photo\", layout: Layout { k: 2, members: [7, 0, 255, 10] } })",
    ),
    // An inline command of Redis is no frame at all; an array without strings asks for nothing.
    (b"*0\r\n", "Err(UnknownCommand)"),
];

#[test]
fn sent(rt: HostRuntime) {
    for &(bytes, wanted) in &SENT {
        assert_asks(&rt, rt.alloc(), frame_in(&rt, rt.alloc(), bytes), wanted);
    }
}

/// The strings of a frame, and what it asks for.
static STRINGS: [(&[&[u8]], &str); 37] = [
    (
        &[b"DEL", b"photo"],
        "Ok(Delete(Deletion { names: [b\"photo\"], done: 0, made: 0 }))",
    ),
    (
        &[b"del", b"photo", b"", b"photo"],
        "Ok(Delete(Deletion { names: [b\"photo\", b\"\", b\"photo\"], done: 0, made: 0 }))",
    ),
    (
        &[b"info", b"server", b"clients"],
        "Ok(Info(Sections { server: true, clients: true, memory: false, persistence: false, \
            stats: false, replication: false, cluster: false, keyspace: false, node: false }))",
    ),
    (
        &[
            b"INFO",
            b"Node",
            b"NODE",
            b"PERSISTENCE",
            b"keyspace",
            b"memory",
        ],
        "Ok(Info(Sections { server: false, clients: false, memory: true, persistence: true, \
            stats: false, replication: false, cluster: false, keyspace: true, node: true }))",
    ),
    (
        &[b"INFO", b"stats", b"REPLICATION", b"cluster"],
        "Ok(Info(Sections { server: false, clients: false, memory: false, persistence: false, \
            stats: true, replication: true, cluster: true, keyspace: false, node: false }))",
    ),
    (
        &[b"INFO", b"ALL"],
        "Ok(Info(Sections { server: true, clients: true, memory: true, persistence: true, \
            stats: true, replication: true, cluster: true, keyspace: true, node: true }))",
    ),
    (
        &[b"INFO", b"server", b"Everything"],
        "Ok(Info(Sections { server: true, clients: true, memory: true, persistence: true, \
            stats: true, replication: true, cluster: true, keyspace: true, node: true }))",
    ),
    (
        &[b"INFO", b"default"],
        "Ok(Info(Sections { server: true, clients: true, memory: true, persistence: true, \
            stats: true, replication: true, cluster: true, keyspace: true, node: true }))",
    ),
    (
        &[b"INFO", b"latencystats", b""],
        "Ok(Info(Sections { server: false, clients: false, memory: false, persistence: false, \
            stats: false, replication: false, cluster: false, keyspace: false, node: false }))",
    ),
    (&[b"COMMAND"], "Ok(ListCommands)"),
    // What libraries say of themselves, and what ends a connection.
    (&[b"client", b"id"], "Ok(ClientId)"),
    (&[b"CLIENT", b"SETNAME", b"tester"], "Ok(DescribeClient)"),
    (
        &[b"CLIENT", b"SETINFO", b"LIB-NAME", b"redis-py"],
        "Ok(DescribeClient)",
    ),
    (&[b"client", b"getname"], "Ok(ClientName)"),
    (&[b"QUIT"], "Ok(Quit)"),
    (&[b"dbSize"], "Ok(CountWritten)"),
    (&[b"layout", b"photo"], "Ok(ShowLayout(b\"photo\"))"),
    // What `redis-cli --scan` and Python's `scan_iter` send.
    (
        &[b"SCAN", b"0"],
        "Ok(Scan { cursor: 0, options: ScanOptions { pattern: None, count: 10 } })",
    ),
    (
        &[b"scan", b"17", b"count", b"1000"],
        "Ok(Scan { cursor: 17, options: ScanOptions { pattern: None, count: 1000 } })",
    ),
    (
        &[b"SCAN", b"18446744073709551615", b"Count", b"1001"],
        "Ok(Scan { cursor: 18446744073709551615, options: ScanOptions { pattern: None, count: 1000 } })",
    ),
    (
        &[b"SCAN", b"0", b"MATCH", b"user:*", b"count", b"100"],
        "Ok(Scan { cursor: 0, options: ScanOptions { pattern: Some(b\"user:*\"), count: 100 } })",
    ),
    (
        &[b"SCAN", b"0", b"COUNT", b"2", b"COUNT", b"3"],
        "Ok(Scan { cursor: 0, options: ScanOptions { pattern: None, count: 3 } })",
    ),
    // What a client asks of a value without getting it.
    (
        &[b"StrLen", b"photo"],
        "Ok(Read { wanted: Length, name: b\"photo\" })",
    ),
    (
        &[b"EXISTS", b""],
        "Ok(Read { wanted: Existence, name: b\"\" })",
    ),
    // What libraries say first.
    (&[b"hello"], "Ok(Hello)"),
    (&[b"HELLO", b"2"], "Ok(Hello)"),
    (&[b"HELLO", b"2", b"setname", b"tester"], "Ok(Hello)"),
    (&[b"HELLO", b"2", b"AUTH", b"default", b"word"], "Ok(Hello)"),
    (
        &[b"HELLO", b"2", b"AUTH", b"default", b"", b"SETNAME", b"x"],
        "Ok(Hello)",
    ),
    (&[b"SELECT", b"0"], "Ok(Select)"),
    (&[b"AUTH", b"default", b"word"], "Ok(Login)"),
    (&[b"COMMAND", b"count"], "Ok(CountCommands)"),
    (&[b"COMMAND", b"LIST", b"COUNT"], "Ok(ListCommands)"),
    (&[b"COMMAND", b"INFO", b"get"], "Ok(ListCommands)"),
    (
        &[b"move", b"", b"1", b"9"],
        "Ok(Move { name: b\"\", layout: Layout { k: 1, members: [9] } })",
    ),
    // `redis-benchmark` asks for settings, which a node does not have.
    (&[b"CONFIG", b"GET", b"save"], "Err(UnknownCommand)"),
    (&[b"LPUSH", b"mylist", b"World"], "Err(UnknownCommand)"),
];

#[test]
fn of_strings(rt: HostRuntime) {
    for &(texts, wanted) in &STRINGS {
        assert_asks(&rt, rt.alloc(), frame_of(&rt, rt.alloc(), texts), wanted);
    }
}
