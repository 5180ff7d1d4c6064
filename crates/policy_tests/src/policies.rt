//! What policy files and proxy lines give, and the first bad word of others.
use policy_args::{
    BadWord, Block, Entry, Grant, Level, LineRefusal, Options, Policy, ProxyLine, WordKind,
    read_line, read_options, words_of,
};
use std::alloc::{AllocError, Global};
use std::test::Fail;
use test_tables::wrong_row;

/// Words of a policy file, and whether messages are filtered, whether they are logged and the number of entries; or the
/// first bad word.
const OPTIONS: &str = "\
--filter => true false 0
 => false false 0
--filter --filter => true false 0
--log => false true 0
--log --filter --log => true true 0
--log --filter --talk=org.a.T => true true 1
--see=org.a.S => false false 1
--see=org.a.* => false false 1
--talk=org.a.T => false false 1
--talk=org.a.* => false false 1
--talk=org.* => false false 1
--own=org.o.O => false false 1
--own=org.o.* => false false 1
--call=org.c.C=* => false false 1
--call=org.c.C= => false false 1
--call=org.c.*=org.c.I.M@/p/* => false false 1
--broadcast=org.b.B= => false false 1
--broadcast=org.b.*=@/p => false false 1
--property=org.a.P=org.a.I.Volume => false false 1
--property=org.a.P=org.a.I.* => false false 1
--property=org.a.*=org.a.I.Volume@/p => false false 1
--property=org.a.P=org.a.I.*@/p/* => false false 1
--property=org.a.P=org.a.I.Volume@/* => false false 1
--filter --talk=org.a.T --talk=org.a.T => true false 1
--talk=org.b.T --talk=org.a.T --filter --talk=org.b.T => true false 2
--call=org.a.C= --call=org.a.C=* => false false 2
--see=org.a.T --talk=org.a.T --see=org.a.T => false false 2
--call=org.a.C=* --broadcast=org.a.C=* --call=org.a.C=* => false false 2
--talk=org.a.T --talk=org.a.T.* --talk=org.a.t => false false 3
--property=org.a.P=org.a.I.V --property=org.a.P=org.a.I.V => false false 1
--property=org.a.P=org.a.I.V --property=org.a.P=org.a.I.W --property=org.a.P=org.a.I.V => false false 2
--call=org.a.P=org.a.I.V --property=org.a.P=org.a.I.V --broadcast=org.a.P=org.a.I.V => false false 3
--see=org => BadName 0
--talk=org => BadName 0
--talk=* => BadName 0
--talk= => BadName 0
--talk=:1.5 => BadName 0
--talk=org.a.T= => BadName 0
--own=org.7a => BadName 0
--call=org => BadName 0
--call=org=x => BadName 0
--call=org=* => BadName 0
--call= => BadName 0
--broadcast==* => BadName 0
--property= => BadName 0
--property=org => BadName 0
--property=org=x => BadName 0
--property=1=org.a.I.V => BadName 0
--property=:1.5=org.a.I.V => BadName 0
--property==org.a.I.V => BadName 0
--call=org.a.C => BadRule 0
--call=org.a.C=Foo => BadRule 0
--call=org.a.C==* => BadRule 0
--call=org.a.C=*@p => BadRule 0
--broadcast=org.a.B => BadRule 0
--broadcast=org.a.B=Foo => BadRule 0
--property=org.a.P => BadRule 0
--property=org.a.P= => BadRule 0
--property=org.a.P=Volume => BadRule 0
--property=org.a.P=a.Volume => BadRule 0
--property=org.a.P=* => BadRule 0
--property=org.a.P=@/p => BadRule 0
--property=org.a.P=*@/p => BadRule 0
--property=org.a.P=org.a.I.Volume@ => BadRule 0
--property=org.a.P==org.a.I.Volume => BadRule 0
--filter= => UnknownOption 0
--Filter => UnknownOption 0
--log= => UnknownOption 0
--log=x => UnknownOption 0
--sloppy-names => false false 0
--sloppy-names= => UnknownOption 0
--sloppy-names=x => UnknownOption 0
--sloppy => UnknownOption 0
--known-fields --talk=org.a.T --known-fields => false false 1
--known-fields=x => UnknownOption 0
--start-called --talk=org.a.T --start-called => false false 1
--start-called=x => UnknownOption 0
--start => UnknownOption 0
--property => UnknownOption 0
--properties=org.a.P=org.a.I.P => UnknownOption 0
--Property=org.a.P=org.a.I.P => UnknownOption 0
--sessions=1 => UnknownOption 0
--talk => UnknownOption 0
talk=org.a.T => UnknownOption 0
org.a.T => UnknownOption 0
 --talk=org.a.T => UnknownOption 0
--filter  => UnknownOption 1
--talk=org.a.T --talk=org => BadName 1
--filter --see=org.a.S --call=org.a.C => BadRule 2
--filter --property=org.a.P=org.a.I.V --property=org.a.P => BadRule 2
--filter --talk=org.a.T --colour --talk=org => UnknownOption 2
";

/// The words of a proxy line, and the truth values of each block's policy.
const TRUTH_VALUES: &str = "\
unix:path=/a /p => false false false;
unix:path=/a /p --sloppy-names unix:path=/b /q --known-fields => true false false;false true false;
unix:path=/a /p --filter unix:path=/b /q --sloppy-names --sloppy-names --known-fields => false false false;true true false;
unix:path=/a /p --known-fields --talk=org.a.T unix:path=/b /q => false true false;false false false;
unix:path=/a /p unix:path=/b /q --start-called => false false false;false false true;
unix:path=/a /p --start-called --known-fields unix:path=/b /q --sloppy-names => false true true;true false false;
--start-called unix:path=/a /p unix:path=/b /q => false false true;false false true;
--known-fields unix:path=/a /p --filter unix:path=/b /q --talk=org.a.T => false true false;false true false;
--sloppy-names unix:path=/a /p --sloppy-names unix:path=/b /q => true false false;true false false;
--replace --start-called --known-fields --fd=3 unix:path=/a /p unix:path=/b /q --sloppy-names => false true true;true true true;
--sloppy-names --start-called unix:path=/a /p --known-fields unix:path=/b /q unix:path=/c /r => true true true;true false true;true false true;
";

/// A name and the words of a policy file, and the name's level.
const LEVELS: &str = "\
org.a.T --see=org.a.* --talk=org.a.T --own=org.o.O --call=org.c.C=* => Talk
org.a.B --see=org.a.* --talk=org.a.T --own=org.o.O --call=org.c.C=* => See
org.a.T.U --see=org.a.* --talk=org.a.T --own=org.o.O --call=org.c.C=* => See
org.a --see=org.a.* --talk=org.a.T --own=org.o.O --call=org.c.C=* => See
org.o.O --see=org.a.* --talk=org.a.T --own=org.o.O --call=org.c.C=* => Own
org.o.O.P --see=org.a.* --talk=org.a.T --own=org.o.O --call=org.c.C=* => None
org.c.C --see=org.a.* --talk=org.a.T --own=org.o.O --call=org.c.C=* => See
org.h.X --see=org.a.* --talk=org.a.T --own=org.o.O --call=org.c.C=* => None
:1.5 --see=org.a.* --talk=org.a.T --own=org.o.O --call=org.c.C=* => None
 --see=org.a.* --talk=org.a.T --own=org.o.O --call=org.c.C=* => None
org.freedesktop.DBus --see=org.a.* --talk=org.a.T --own=org.o.O --call=org.c.C=* => Talk
org.freedesktop.DBus  => Talk
org.freedesktop.DBus.Local  => None
org.freedesktop.DBus --see=org.freedesktop.DBus => Talk
org.freedesktop.DBus --own=org.freedesktop.* => Own
org.a.T --own=org.a.T --see=org.a.T => Own
org.a.T --see=org.a.T --own=org.a.T --talk=org.a.T => Own
org.b.B --talk=org.b.* --call=org.b.B=* => Talk
org.b.B --broadcast=org.b.B=* => See
org.p.P --property=org.p.*=org.p.I.* => See
org.q.P --property=org.p.*=org.p.I.* => None
org.p.P --property=org.p.P=org.p.I.V --talk=org.p.P --call=org.p.P=* => Talk
";

/// Words of a policy file, and for each entry its word, the name, whether the name is exact, the option, the rule and
/// the level.
const ENTRIES: &str = "\
--filter => 
--see=org.a.* --talk=org.a.T --see=org.a.* --own=org.o.O => --see=org.a.* org.a false see  See|--talk=org.a.T org.a.T true talk  Talk|--own=org.o.O org.o.O true own  Own|
--call=org.c.C=* --talk=org.a.T --broadcast=org.b.*=org.b.I.S@/p => --call=org.c.C=* org.c.C true call * See|\
    --talk=org.a.T org.a.T true talk  Talk|--broadcast=org.b.*=org.b.I.S@/p org.b false broadcast org.b.I.S@/p See|
--call=org.c.C= => --call=org.c.C= org.c.C true call  See|
--property=org.p.*=org.p.I.V@/p/* => --property=org.p.*=org.p.I.V@/p/* org.p false property org.p.I.V@/p/* See|
--property=org.p.P=org.p.I.V --call=org.p.P=org.p.I.V --property=org.p.P=org.p.I.* --property=org.p.P=org.p.I.V => \
    --property=org.p.P=org.p.I.V org.p.P true property org.p.I.V See|\
    --call=org.p.P=org.p.I.V org.p.P true call org.p.I.V See|--property=org.p.P=org.p.I.* \
    org.p.P true property org.p.I.* See|
";

/// A number of words with different names, and one more word, and whether messages are filtered, whether they are
/// logged and the number of entries.
const MANY_WORDS: &str = "\
65535 --filter => true false 65535
65535 --talk=a.b7 => false false 65535
65534 --see=a.b7 => false false 65535
65535 --see=a.b7 => TooMany 65535
";

/// The words of a number of blocks, and one more word, and the number of blocks.
const MANY_BLOCKS: &str = "\
65535 --filter => 65535
65535 unix:path=/a => TooMany 131070
";

/// Words of a proxy line, and the number of served sessions, and, if there are any, the file in which they are
/// recorded, the starter's descriptor and that sockets are replaced; and for each block the address, the path, whether
/// messages are filtered, whether they are logged, the number of entries and the level of org.a.T; or the first bad
/// word.
const LINES: &str = "\
unix:path=/run/user/1000/bus,guid=00 /tmp/p --filter --talk=org.a.T --talk=org.a.T --see=org.a.* => 4294967295, /run/user/1000/bus /tmp/p true false 2 Talk
unix:path=/a /p => 4294967295, /a /p false false 0 None
unix:path=a p => 4294967295, a p false false 0 None
unix:path=/a -p => 4294967295, /a -p false false 0 None
unix:path=/a unix:path=/b => 4294967295, /a unix:path=/b false false 0 None
unix:path=/a,path=/b /p => 4294967295, /a /p false false 0 None
unix:path=/a;unix:path=/b /p => 4294967295, /a /p false false 0 None
unix:abstract=/x;unix:path=/a%20b /p => 4294967295, /a b /p false false 0 None
tcp:host=h;unix:guid=1,path=/q /p => 4294967295, /q /p false false 0 None
tcp:path=/a;unix:path=/b /p => 4294967295, /b /p false false 0 None
unix:path=/a%e2%82%ac /p => 4294967295, /a€ /p false false 0 None
unix:path=/%E2%82%ACa /p => 4294967295, /€a /p false false 0 None
unix:path=/a%2C%3b%3D%25 /p => 4294967295, /a,;=% /p false false 0 None
unix:path=/a /p --sessions=1 => 1, /a /p false false 0 None
unix:path=/a /p --sessions=1000000 => 1000000, /a /p false false 0 None
unix:path=/a /p --log unix:path=/b /q --filter => 4294967295, /a /p false true 0 None, /b /q true false 0 None
unix:path=/a /p --sessions=9 --filter --sessions=10 => 10, /a /p true false 0 None
unix:path=/a /p --filter --talk=org.a.T --sessions=2 unix:path=/b \
    /q unix:path=/c /r --see=org.a.T --own=org.a.T --sessions=3 => 3, /a /p true false 1 Talk, \
    /b /q false false 0 None, /c /r false false 2 Own
unix:path=/a /p --record=/r => 4294967295 /r, /a /p false false 0 None
--fd=35 unix:path=/a /p => 4294967295 fd=35, /a /p false false 0 None
unix:path=/a /p --fd=0 => 4294967295 fd=0, /a /p false false 0 None
unix:path=/a /p --fd=99999 => 4294967295 fd=99999, /a /p false false 0 None
--fd=3 unix:path=/a /p --fd=4 unix:path=/b /q --fd=2147483647 => 4294967295 fd=2147483647, /a /p false false 0 None, /b /q false false 0 None
--replace unix:path=/a /p => 4294967295 replace, /a /p false false 0 None
unix:path=/a /p --filter unix:path=/b /q --replace --replace --talk=org.a.T => 4294967295 replace, /a /p true false 0 None, /b /q false false 1 Talk
--fd=3 --replace unix:path=/a /p --sessions=1 --record=/r => 1 /r fd=3 replace, /a /p false false 0 None
unix:path=/a /p --record=r=s --sessions=2 unix:path=/b /q --record=--log --filter => 2 --log, /a /p false false 0 None, /b /q true false 0 None
 => BadAddress 0
 /p => BadAddress 0
--record=/r => OptionBeforeAddress 0
--filter => OptionBeforeAddress 0
--log => OptionBeforeAddress 0
--sessions=1 => OptionBeforeAddress 0
--colour unix:path=/a /p => OptionBeforeAddress 0
--talk=org.a.T unix:path=/a /p => OptionBeforeAddress 0
--start-called --talk=org.a.T unix:path=/a /p => OptionBeforeAddress 1
--start-called= unix:path=/a /p => OptionBeforeAddress 0
--sloppy-names => BadAddress 1
--fd=3 --replace => BadAddress 2
--fd= unix:path=/a /p => BadNumber 0
--fd=x => BadNumber 0
--fd unix:path=/a /p => OptionBeforeAddress 0
--replace=x unix:path=/a /p => OptionBeforeAddress 0
--args=7 unix:path=/a /p => OptionBeforeAddress 0
--args=x unix:path=/a /p => BadNumber 0
unix:path=/a --fd=3 => NoPath 1
unix:path=/a --replace => NoPath 1
unix:path=/a --args=x => NoPath 1
unix:path=/a => NoPath 1
unix:path=/a --log => NoPath 1
unix:path=/a --sessions=0 => NoPath 1
unix:path=/a  => NoPath 1
/a /p => BadAddress 0
unix: /p => BadAddress 0
UNIX:path=/a /p => BadAddress 0
tcp:path=/a /p => BadAddress 0
unix:abstract=/a /p => BadAddress 0
unix:xpath=/a /p => BadAddress 0
unix:path= /p => BadAddress 0
unix:path=;unix:path=/b /p => BadAddress 0
unix:path=/a% /p => BadAddress 0
unix:path=/a%2 /p => BadAddress 0
unix:path=/a%2g /p => BadAddress 0
unix:path=/a%2%20 /p => BadAddress 0
unix:path=/a%00 /p => BadAddress 0
unix:path=/a%ff /p => BadAddress 0
unix:path=/a%ff;unix:path=/b /p => BadAddress 0
unix:path=/a /p unix:path= => BadAddress 2
unix:path=/a /p org.a.T => BadAddress 2
unix:path=/a /p  => BadAddress 2
unix:path=/a /p unix:path=/b => NoPath 3
unix:path=/a /p unix:path=/b --filter => NoPath 3
unix:path=/a /p --filter unix:path=/b => NoPath 4
unix:path=/a /p unix:path=/b /q --talk=org => BadName 4
unix:path=/a /p --filter --talk=org.a.T --logs => UnknownOption 4
unix:path=/a /p --talk=org => BadName 2
unix:path=/a /p --call=org=Foo => BadName 2
unix:path=/a /p --call=org.a.C=Foo => BadRule 2
unix:path=/a /p --call=org.a.C => BadRule 2
unix:path=/a /p --colour => UnknownOption 2
unix:path=/a /p --sessions => UnknownOption 2
unix:path=/a /p -- => UnknownOption 2
unix:path=/a /p --record => UnknownOption 2
unix:path=/a /p --record= => UnknownOption 2
unix:path=/a /p --record=/r --record= => UnknownOption 3
unix:path=/a /p --records=/r => UnknownOption 2
unix:path=/a --record=/r => NoPath 1
unix:path=/a /p --sessions= => BadNumber 2
unix:path=/a /p --sessions=0 => BadNumber 2
unix:path=/a /p --sessions=01 => BadNumber 2
unix:path=/a /p --sessions=+1 => BadNumber 2
unix:path=/a /p --sessions=1x => BadNumber 2
unix:path=/a /p --sessions=1000001 => BadNumber 2
unix:path=/a /p --sessions=99999999999 => BadNumber 2
unix:path=/a /p --fd= => BadNumber 2
unix:path=/a /p --fd=x => BadNumber 2
unix:path=/a /p --fd=01 => BadNumber 2
unix:path=/a /p --fd=00 => BadNumber 2
unix:path=/a /p --fd=-1 => BadNumber 2
unix:path=/a /p --fd=+1 => BadNumber 2
unix:path=/a /p --fd=1x => BadNumber 2
unix:path=/a /p --fd=2147483648 => BadNumber 2
unix:path=/a /p --fd=4294967296 => BadNumber 2
unix:path=/a /p --fd=18446744073709551616 => BadNumber 2
unix:path=/a /p --fd=3 --fd= => BadNumber 3
unix:path=/a /p --args= => BadNumber 2
unix:path=/a /p --args=x => BadNumber 2
unix:path=/a /p --args=01 => BadNumber 2
unix:path=/a /p --args=2147483648 => BadNumber 2
unix:path=/a /p --args=7 => UnknownOption 2
unix:path=/a /p --args => UnknownOption 2
unix:path=/a /p --fd => UnknownOption 2
unix:path=/a /p --replace= => UnknownOption 2
unix:path=/a /p --replace=x => UnknownOption 2
";

/// The words of a row, separated by spaces. A row without a byte has no words.
fn split(alloc: Global, row: &str) -> Result<Vec<String>, AllocError> {
    let mut words = Vec::new(alloc);
    if row.is_empty() {
        return Ok(words);
    }
    for word in row.split(' ') {
        words.push(String::from_str(alloc, word)?)?;
    }
    Ok(words)
}

fn told_refusal(alloc: Global, refusal: LineRefusal) -> Result<String, AllocError> {
    match refusal {
        LineRefusal::Bad(word) => format!(in alloc; "{:?} {}", word.kind, word.index),
        LineRefusal::Memory => Err(AllocError),
    }
}

fn told_options(alloc: Global, row: &str) -> Result<String, AllocError> {
    let words = split(alloc, row)?;
    told_read(alloc, read_options(alloc, &words))
}

/// For each block, whether owner changes of unique names are shown, whether only known header fields pass, and whether
/// names that may be called may be started.
fn told_truth_values(alloc: Global, row: &str) -> Result<String, AllocError> {
    let words = split(alloc, row)?;
    let line = match read_line(alloc, &words) {
        Ok(line) => line,
        Err(refusal) => return told_refusal(alloc, refusal),
    };
    let mut told = String::new(alloc);
    for block in &line.blocks {
        let policy = &block.options.policy;
        let text = format!(in alloc;
            "{} {} {};",
            policy.sloppy(),
            policy.known_fields(),
            policy.start_called()
        )?;
        told.push_str(&text)?;
    }
    Ok(told)
}

fn told_read(alloc: Global, read: Result<Options, LineRefusal>) -> Result<String, AllocError> {
    match read {
        Ok(options) => format!(in alloc;
            "{} {} {}",
            options.filter,
            options.log,
            options.policy.len()
        ),
        Err(refusal) => told_refusal(alloc, refusal),
    }
}

fn told_line(alloc: Global, row: &str) -> Result<String, AllocError> {
    let words = split(alloc, row)?;
    match read_line(alloc, &words) {
        Ok(line) => told_blocks(alloc, &line),
        Err(refusal) => told_refusal(alloc, refusal),
    }
}

fn told_blocks(alloc: Global, line: &ProxyLine) -> Result<String, AllocError> {
    let mut told = format!(in alloc; "{}", line.sessions)?;
    if let Some(path) = &line.record_to {
        told.push(' ')?;
        told.push_str(path)?;
    }
    if let Some(starter) = line.starter {
        let text = format!(in alloc; " fd={starter}")?;
        told.push_str(&text)?;
    }
    if line.replaces {
        told.push_str(" replace")?;
    }
    for block in &line.blocks {
        let text = told_block(alloc, block)?;
        told.push_str(&text)?;
    }
    Ok(told)
}

fn told_block(alloc: Global, block: &Block) -> Result<String, AllocError> {
    let Options {
        filter,
        log,
        policy,
    } = &block.options;
    let level = policy.level("org.a.T");
    format!(in alloc;
        ", {} {} {filter} {log} {} {level:?}",
        block.address,
        block.path,
        policy.len()
    )
}

fn told_entries(alloc: Global, row: &str) -> Result<String, AllocError> {
    let words = split(alloc, row)?;
    match read_options(alloc, &words) {
        Ok(options) => each_entry(alloc, &options.policy),
        Err(refusal) => told_refusal(alloc, refusal),
    }
}

fn each_entry(alloc: Global, policy: &Policy) -> Result<String, AllocError> {
    let mut told = String::new(alloc);
    for number in 1..=policy.len() {
        let text = told_entry(alloc, policy.word(number), policy.entry(number))?;
        told.push_str(&text)?;
    }
    Ok(told)
}

fn told_entry(alloc: Global, given: &str, entry: &Entry) -> Result<String, AllocError> {
    let (word, rule) = told_grant(&entry.grant);
    let (name, exact) = (entry.pattern.name(), entry.pattern.is_exact());
    format!(in alloc;
        "{given} {name} {exact} {word} {rule} {:?}|",
        entry.grant.level()
    )
}

/// What a word names beside its name.
fn told_grant(grant: &Grant) -> (&str, &str) {
    match grant {
        Grant::See => ("see", ""),
        Grant::Talk => ("talk", ""),
        Grant::Own => ("own", ""),
        Grant::Call(rule) => ("call", rule.text()),
        Grant::Broadcast(rule) => ("broadcast", rule.text()),
        Grant::Property(rule) => ("property", rule.text()),
    }
}

fn told_level(alloc: Global, row: &str) -> Result<String, AllocError> {
    let (name, words) = row.split_once(' ').unwrap_or((row, ""));
    let words = split(alloc, words)?;
    match read_options(alloc, &words) {
        Ok(options) => format!(in alloc; "{:?}", options.policy.level(name)),
        Err(refusal) => told_refusal(alloc, refusal),
    }
}

/// What this many words of names ask for, with one more word.
fn told_with_many(alloc: Global, row: &str) -> Result<String, AllocError> {
    let (count, word) = row.split_once(' ').unwrap_or((row, ""));
    let mut words = Vec::new(alloc);
    for number in 0..count.parse().unwrap_or(0_u32) {
        words.push(format!(in alloc; "--talk=a.b{number}")?)?;
    }
    words.push(String::from_str(alloc, word)?)?;
    told_read(alloc, read_options(alloc, &words))
}

/// The number of blocks of a line with the words of this many blocks, and with one more word if it isn't empty.
fn told_with_blocks(alloc: Global, row: &str) -> Result<String, AllocError> {
    let (count, word) = row.split_once(' ').unwrap_or((row, ""));
    let mut words = Vec::new(alloc);
    for _ in 0..count.parse().unwrap_or(0_u32) {
        words.push(String::from_str(alloc, "unix:path=/a")?)?;
        words.push(String::from_str(alloc, "/p")?)?;
    }
    words.push(String::from_str(alloc, word)?)?;
    match read_line(alloc, &words) {
        Ok(line) => format!(in alloc; "{}", line.blocks.len()),
        Err(refusal) => told_refusal(alloc, refusal),
    }
}

/// The words of a policy file, each followed by a `|`.
fn told_words(alloc: Global, file: &[u8]) -> Result<String, AllocError> {
    match words_of(alloc, file) {
        Ok(words) => marked(alloc, &words),
        Err(refusal) => told_refusal(alloc, refusal),
    }
}

fn marked(alloc: Global, words: &[String]) -> Result<String, AllocError> {
    let mut told = String::new(alloc);
    for word in words {
        told.push_str(word)?;
        told.push('|')?;
    }
    Ok(told)
}

#[test]
fn words_give_options_or_the_first_bad_word(rt: HostRuntime) -> Result<(), Fail> {
    assert_eq!(rt; wrong_row(rt.alloc(), OPTIONS, &told_options)?, None);
    Ok(())
}

#[test]
fn words_give_a_line_or_the_first_bad_word(rt: HostRuntime) -> Result<(), Fail> {
    assert_eq!(rt; wrong_row(rt.alloc(), LINES, &told_line)?, None);
    Ok(())
}

#[test]
fn a_truth_value_is_of_its_own_block(rt: HostRuntime) -> Result<(), Fail> {
    assert_eq!(rt;
        wrong_row(rt.alloc(), TRUTH_VALUES, &told_truth_values)?,
        None
    );
    Ok(())
}

#[test]
fn entries_stand_in_the_order_of_their_first_words(rt: HostRuntime) -> Result<(), Fail> {
    assert_eq!(rt; wrong_row(rt.alloc(), ENTRIES, &told_entries)?, None);
    let none = Policy::new(rt.alloc());
    assert!(rt; none.is_empty());
    Ok(())
}

#[test]
fn a_name_has_the_greatest_level_that_is_given(rt: HostRuntime) -> Result<(), Fail> {
    assert_eq!(rt; wrong_row(rt.alloc(), LEVELS, &told_level)?, None);
    Ok(())
}

#[test]
fn the_greater_of_two_levels_is_told(rt: HostRuntime) {
    let levels = [Level::None, Level::See, Level::Talk, Level::Own];
    for (low, level) in levels.iter().enumerate() {
        for (high, other) in levels.iter().enumerate() {
            let greater = if low < high { other } else { level };
            assert_eq!(rt; level.max_with(*other), *greater);
        }
    }
}

#[test]
fn policies_and_lines_have_at_most_65535_entries_and_blocks(rt: HostRuntime) -> Result<(), Fail> {
    assert_eq!(rt; wrong_row(rt.alloc(), MANY_WORDS, &told_with_many)?, None);
    assert_eq!(rt;
        wrong_row(rt.alloc(), MANY_BLOCKS, &told_with_blocks)?,
        None
    );
    Ok(())
}

#[test]
fn words_end_at_nul(rt: HostRuntime) -> Result<(), Fail> {
    let rows: [(&[u8], &str); 13] = [
        (b"--filter\0\0caf\xc3\xa9", "--filter||caf\u{e9}|"),
        (b"", ""),
        (b"\0", "|"),
        (b"\0\0", "||"),
        (b"a", "a|"),
        (b"a\0", "a|"),
        (b"a\0b", "a|b|"),
        (b"a\0b\0", "a|b|"),
        (b"a b\nc", "a b\nc|"),
        (b"\xff", "UnknownOption 0"),
        (b"a\0b\xff\0c\0", "UnknownOption 1"),
        (b"\0\0\xc3\0", "UnknownOption 2"),
        (b"\xc3\0\xa9", "UnknownOption 0"),
    ];
    for (file, expected) in rows {
        assert_eq!(rt; told_words(rt.alloc(), file)?.as_str(), expected);
    }
    Ok(())
}

#[test]
fn refused_words_are_told(rt: HostRuntime) -> Result<(), Fail> {
    let kind = WordKind::NoPath;
    let refusal = LineRefusal::Bad(BadWord { index: 1, kind });
    let told = format!(in rt.alloc(); "{refusal}, {}", LineRefusal::Memory);
    let expected = "word 1: no path follows the bus address, out of memory";
    assert_eq!(rt; told?.as_str(), expected);
    Ok(())
}
