//! The words of `call` and `serve`: their arguments and their help. A change here is one in
//! docs/giopctl.md and tests/program too.
ghost use Rattle.std.specs.Prelude.{IfOk};
ghost use Rattle.giop_session.specs.Acts.Form.{IsForm};
ghost use Rattle.giop_commands.specs.Check.{AreLimits};

use crate::cli::file_words::{FileWord, answers, apart_from, interfaces};
use crate::cli::form_words::{json, json_numbers, lines_of};
use crate::cli::limit_words::{limited, limits_of};
use crate::files::apart;
use clap::builder::ValueParser;
use clap::{Arg, ArgAction, ArgGroup, ArgMatches, Command};
use giop_cdr::Order;
use giop_commands::LineForm;
use giop_commands::serve::given::{KeyWord, Telling};
use giop_session::{Form, Limits};
use std::alloc::{AllocError, Global};

/// What `call` is asked for.
#[derive(Debug, Drop)]
pub struct CallWords<'a> {
    /// The text of the object's reference, or a corbaloc; behind `@` the name of a file of it, or `-`
    /// for the standard input.
    pub target: &'a str,
    /// The files of interfaces.
    pub interfaces: Vec<FileWord<'a>>,
    /// The name of the file of the calls, or `-` for the standard input; or that of an operation,
    /// where there are values of its ins, or no such file.
    pub file: &'a str,
    /// The ins of that operation, each the JSON text of a value.
    pub values: Vec<&'a str>,
    /// When the calls are told.
    pub telling: Telling,
    /// Whether forwards are followed; not where calls are told when they are over.
    pub follow: bool,
    /// The form of their lines.
    pub lines: LineForm,
    /// For how many seconds nothing may come or go, 1 to 86,400; any number where it is `None`.
    pub timeout: Option<u32>,
    /// How Requests are sent.
    pub form: Form,
    /// What the end holds at most.
    pub limits: Limits,
    pub ghost sent: { IsForm form },
    pub ghost bounded: { AreLimits limits },
}

/// What `serve` is asked for.
#[derive(Debug, Drop)]
pub struct ServeWords<'a> {
    /// The port, 1 to 65,535; 0 for one that is free.
    pub port: u16,
    /// The files of interfaces.
    pub interfaces: Vec<FileWord<'a>>,
    /// The files of answers.
    pub answers: Vec<FileWord<'a>>,
    /// The object key.
    pub key: KeyWord<'a>,
    /// The name of the file that the object's reference is written to, if one is given.
    pub ior_file: Option<&'a str>,
    /// The object's type id, if one is given; it may be empty.
    pub type_id: Option<&'a str>,
    /// How many connections are served, 1 to 65,535.
    pub connections: u32,
    /// When the calls are told.
    pub telling: Telling,
    /// The form of their lines.
    pub lines: LineForm,
    /// How Replies are sent.
    pub form: Form,
    /// What the end of each connection holds at most.
    pub limits: Limits,
    pub ghost sent: { IsForm form },
    pub ghost bounded: { AreLimits limits },
}

const CALL_HELP: &str = "\
The target is the text of a reference, IOR: and hexadecimal digits, of which the first IIOP profile
is taken, or a corbaloc, of which the first address is taken; quote it, since a shell reads some of
its signs. It says the version that is spoken: a corbaloc without one is of 1.0, and
corbaloc::1.2@HOST:PORT/KEY of 1.2.
--target @FILE takes the text from a file, in which a newline at the end is dropped.
The file is a JSON list of calls, each with a request id of its own:
  [{\"id\":1,\"operation\":\"add\",\"ins\":[2,5]},{\"id\":2,\"operation\":\"ping\",\"ins\":[]}]
In place of it one call may stand in words: the name of an operation, and its ins behind it, each a
JSON value. A name alone is that of a file, where there is one. The id of such a call is 1.
All of them are sent, then replies are read until all are there or the server closes the connection.
Each call has a line, in ascending order of the id:
  Done 0 OUTS           its result, and the inout and out parameters, as a JSON list
  Done 1 ID MEMBERS     an exception of the interface
  Done 2 ID MINOR COMPLETION   a system exception; completed: 0 yes, 1 no, 2 maybe
  Done 3 IOR, Done 4 IOR       the object is elsewhere, for this call or for good
  Done 5 DISPOSITION    the server wants the object addressed in another way
  OnewaySent            it has no reply
  Undecoded reply FAULT the reply can't be decoded, and where, from the message's first octet on
  Sending, Waiting, Gathering   all of it isn't sent; no reply came; a part of it came
The last line is the fault that ended the session, where there is one.
With --stream a call is made as soon as there is room for it, each call is shown as soon as it is
over, and then it is forgotten, so that a connection may have any number of calls. At the end the
calls that are still open have their lines, and those that weren't made:
  Unsent                nothing of it was sent
The file may then have a call a line, in place of a list, and be a pipe that doesn't end:
  {\"id\":1,\"operation\":\"add\",\"ins\":[2,5]}
Such lines are read as there is room for their calls; of a pipe, when no call is open. A line that is
refused ends them: the calls before it are told, then why it is refused, and its number.
With --follow a call that is forwarded is made again where the first IIOP profile of the reference
says, up to five times, over a connection of its own; its line says what it came to there, and
standard error where it was forwarded to. --follow and --stream exclude each other.
With --json each call is {\"id\":ID,\"what\":WHAT,..}, in which WHAT is result, user_exception,
system_exception, forward, forward_perm, needs_addressing, oneway, undecoded, sending, waiting,
gathering or unsent; the fault is {\"fault\":{..}}.
--interface KEY=FILE, any number of times, is the interface of the object of a key alone. KEY is as
in a corbaloc, with % and two hexadecimal digits for what isn't plain. It is what stands before the
first =; of =FILE there is none. The target says which object is called.
Where the server hangs up while calls are open, standard error says how many. With --timeout the
connection is given up where nothing comes or goes for so many seconds, and each call has its line.

Exit statuses:
  0  each call got its result, or was sent and has none
  1  one got none, or was refused; or the target, the interface or the calls are refused
  2  usage
  3  reading, writing or the connection failed
  4  out of memory

Examples, each while the example of giopctl serve --help runs:
  giopctl call --target corbaloc::1.2@127.0.0.1:2810/k --interface examples/calculator.json \
examples/calls.json
  giopctl call --target corbaloc::1.2@127.0.0.1:2810/k --interface examples/calculator.json add 2 5
  giopctl call --json --target corbaloc::1.2@127.0.0.1:2810/k \
--interface examples/calculator.json add 2 5";

const SERVE_HELP: &str = "\
It listens at 127.0.0.1 alone, and serves one connection after the other. The file of the answers is
a JSON object with a member for each operation that isn't oneway: its result, inout and out
parameters, or an exception of the interface and its members:
  {\"ping\":{\"ok\":[]},\"add\":{\"ok\":[7]},\"list\":{\"user\":\"IDL:Demo/Bad:1.0\",\"members\":[]}}
A list of answers in place of one is given in turn, one to a call; the last stays.
An answer that passes the limits in every version is refused with the file.
--interface KEY=FILE, any number of times, is the interface of the object of a key alone. KEY is as
in a corbaloc, with % and two hexadecimal digits for what isn't plain. It is what stands before the
first =; of =FILE there is none. So it is with --answers, and each KEY is an object that is served
too. Lines end then with the object, as by giopctl check.
A Request of an object that is served is answered so, one of another object by OBJECT_NOT_EXIST, an
unknown operation by BAD_OPERATION, and one that can't be decoded by MARSHAL. A LocateRequest is told
whether its object is here. With --type-id, or by the id of the interface's file, an object answers
_is_a and _non_existent by itself, where the answers say nothing of them.
When a connection has ended its number is shown, and then a line for each of its calls, as by check,
and for those that were answered:
  Answered STATUS       a Request: 0 a result, 1 an exception, 2 a system exception
  LocateAnswered 1      a LocateRequest: 1 here, 0 not
The last line is the fault that ended it, where there is one.
With --stream the number is shown at once, and each call as soon as it is over. Then it is forgotten,
so that a connection may have any number of calls. Of a Request that is answered its line says
  Asked OPERATION INS Answered REPLY, or Undecoded FAULT Answered REPLY
with what giopctl call shows behind Done as REPLY. The calls that are still open have their lines at
the end, and the last line is rest N, the octets that are no whole message, or the fault.
With --json the number is {\"connection\":K} and each call {\"id\":ID,\"what\":WHAT,..}, in which WHAT
is answered, locate_answered, or as by check; a fault is {\"fault\":{..}}. With --stream answered has
\"asked\" and \"outcome\", as by trace, and the octets that are left are {\"rest\":N}.
Where a client hangs up within a message or a call in pieces, standard error says so.
With --ior-file the object's reference, with its type id, is written to a file before the port is told;
giopctl call takes it by --target @FILE.

Exit statuses, of which the greatest of all connections is taken:
  0  the connection ended, or the client closed it
  1  another fault ended it; or the interface or the answers are refused
  2  usage
  3  reading, writing, listening or the connection failed
  4  out of memory

Examples:
  giopctl serve --port 2810 --interface examples/calculator.json --answers examples/answers.json \
--key 6b
  giopctl serve --json --stream --port 2810 --interface examples/calculator.json \
--answers examples/answers.json --key 6b";

/// The command `call`.
pub fn call<'a>(alloc: Global) -> Result<Command<'a>, AllocError> {
    let file = Arg::new(alloc, "FILE").required(true).help(
        "The file of the calls, in JSON, or - for the standard input; or an operation's name",
    );
    let values = Arg::new(alloc, "VALUE")
        .num_args(1..)
        .allow_negative_numbers(true)
        .help("The ins of that operation, each a JSON value");
    let command = Command::new(alloc, "call")
        .about("Calls operations of an object, and shows the replies")
        .after_help(CALL_HELP)
        .arg(target(alloc))?
        .arg(interfaces(alloc))?
        .arg(json(alloc))?
        .arg(json_numbers(alloc))?
        .arg(stream(alloc))?
        .arg(follow(
            alloc,
            "A call that is forwarded is made again there, up to five times",
        ))?
        .arg(timeout(alloc))?;
    sent(alloc, command)?.arg(file)?.arg(values)
}

/// The command `serve`.
pub fn serve<'a>(alloc: Global) -> Result<Command<'a>, AllocError> {
    let port = number(
        alloc,
        "port",
        "The port that is listened at, on 127.0.0.1; 0 for one that is free",
    )
    .required(true)
    .value_parser(ValueParser::Unsigned(0, 65_535));
    let connections = number(
        alloc,
        "connections",
        "How many connections are served, one after the other",
    )
    .default_value("1")
    .value_parser(ValueParser::Unsigned(1, 65_535));
    let ior_file = Arg::new(alloc, "ior-file")
        .long("ior-file")
        .value_name("FILE")
        .help("The file that the object's reference is written to");
    let type_id = Arg::new(alloc, "type-id")
        .long("type-id")
        .value_name("ID")
        .help("The object's type id, in place of the id that the interface has");
    let command = Command::new(alloc, "serve")
        .about("Answers the calls of one object")
        .after_help(SERVE_HELP)
        .arg(port)?
        .arg(interfaces(alloc))?
        .arg(answers(alloc))?
        .arg(key(alloc))?
        .arg(key_text(alloc))?
        .group(one_key(alloc)?)?
        .arg(ior_file)?
        .arg(type_id)?
        .arg(connections)?
        .arg(json(alloc))?
        .arg(json_numbers(alloc))?
        .arg(stream(alloc))?;
    sent(alloc, command)
}

fn key<'a>(alloc: Global) -> Arg<'a> {
    Arg::new(alloc, "key")
        .long("key")
        .value_name("HEX")
        .help("The object key, in hexadecimal digits")
}

fn key_text<'a>(alloc: Global) -> Arg<'a> {
    Arg::new(alloc, "key-text")
        .long("key-text")
        .value_name("TEXT")
        .help("The object key, as a text, in place of --key")
}

// One of both is wanted, and no more.
fn one_key<'a>(alloc: Global) -> Result<ArgGroup<'a>, AllocError> {
    ArgGroup::new(alloc, "one-key")
        .required(true)
        .arg("key")?
        .arg("key-text")
}

fn stream<'a>(alloc: Global) -> Arg<'a> {
    Arg::new(alloc, "stream")
        .long("stream")
        .action(ArgAction::SetTrue)
        .help("Each call is shown as soon as it is over, and forgotten")
}

/// The option by which forwards are followed.
pub fn follow<'a>(alloc: Global, help: &'a str) -> Arg<'a> {
    Arg::new(alloc, "follow")
        .long("follow")
        .action(ArgAction::SetTrue)
        .help(help)
}

/// The option of the object that is called.
pub fn target<'a>(alloc: Global) -> Arg<'a> {
    Arg::new(alloc, "target")
        .long("target")
        .required(true)
        .value_name("TEXT")
        .help("The object: the text of its reference, or a corbaloc; or @ and a file of that text")
}

/// The option of how long nothing may come or go.
pub fn timeout<'a>(alloc: Global) -> Arg<'a> {
    Arg::new(alloc, "timeout")
        .long("timeout")
        .value_name("SECONDS")
        .value_parser(ValueParser::Unsigned(1, 86_400))
        .help("Gives up, with status 3, where nothing comes or goes for so long")
}

fn number<'a>(alloc: Global, name: &'a str, help: &'a str) -> Arg<'a> {
    Arg::new(alloc, name).long(name).value_name("N").help(help)
}

// A command with the options of how messages are sent, and of the limits.
fn sent<'a>(alloc: Global, command: Command<'a>) -> Result<Command<'a>, AllocError> {
    let piece = number(
        alloc,
        "piece",
        "The most octets of a message, a multiple of 8 from 24 to 1048584",
    )
    .default_value("4096")
    .value_parser(ValueParser::Unsigned(24, 1_048_584));
    limited(alloc, command.arg(piece)?.arg(little(alloc))?)
}

/// The option of the byte order of what is sent.
pub fn little<'a>(alloc: Global) -> Arg<'a> {
    Arg::new(alloc, "little")
        .long("little")
        .action(ArgAction::SetTrue)
        .help("Messages are sent little-endian, not big-endian")
}

/// What `call` is asked for with these files and values, or what is wrong with a word.
pub fn call_words<'a>(
    matches: &ArgMatches<'a>,
    interfaces: Vec<FileWord<'a>>,
    values: Vec<&'a str>,
) -> Result<CallWords<'a>, &'static str> {
    let form = form_of(matches)?;
    let limits = limits_of(matches)?;
    let (Some(target), Some(file)) = (matches.get_str("target"), matches.get_str("FILE")) else {
        return Err("--target and FILE are wanted");
    };
    apart_from(interfaces.as_slice(), file)?;
    if let Some(reference) = target.strip_prefix('@') {
        apart_from(interfaces.as_slice(), reference)?;
        apart(reference, file)?;
    }
    let (telling, follow) = (telling_of(matches), matches.get_flag("follow"));
    if follow && telling == Telling::WhenOver {
        return Err("--follow and --stream exclude each other");
    }
    Ok(CallWords {
        target,
        interfaces,
        file,
        values,
        telling,
        follow,
        lines: lines_of(matches),
        timeout: timeout_of(matches)?,
        form,
        limits,
    })
}

/// The values that `call` is asked for behind an operation.
pub fn values_of<'a>(alloc: Global, matches: &ArgMatches<'a>) -> Result<Vec<&'a str>, AllocError> {
    match matches.get_strs("VALUE") {
        Some(values) => Vec::from_slice(alloc, values),
        None => Ok(Vec::new(alloc)),
    }
}

/// What `serve` is asked for with these files, or what is wrong with a word.
pub fn serve_words<'a>(
    matches: &ArgMatches<'a>,
    interfaces: Vec<FileWord<'a>>,
    answers: Vec<FileWord<'a>>,
) -> Result<ServeWords<'a>, &'static str> {
    let form = form_of(matches)?;
    let limits = limits_of(matches)?;
    let Some(port) = port_of(matches) else {
        return Err("--port is a number from 0 to 65535, in decimal digits");
    };
    let Some(connections) = connections_of(matches) else {
        return Err("--connections is a number from 1 to 65535, in decimal digits");
    };
    for answer in &answers {
        apart_from(interfaces.as_slice(), answer.file)?;
    }
    apart_from(answers.as_slice(), "")?;
    Ok(ServeWords {
        port,
        interfaces,
        answers,
        key: key_of(matches)?,
        ior_file: matches.get_str("ior-file"),
        type_id: matches.get_str("type-id"),
        connections,
        telling: telling_of(matches),
        lines: lines_of(matches),
        form,
        limits,
    })
}

// The object key, of which there is one word.
fn key_of<'a>(matches: &ArgMatches<'a>) -> Result<KeyWord<'a>, &'static str> {
    match (matches.get_str("key"), matches.get_str("key-text")) {
        (Some(digits), None) if is_hexadecimal(digits) => Ok(KeyWord::Hex(digits)),
        (Some(_), None) => Err("--key is pairs of hexadecimal digits"),
        (None, Some(text)) => Ok(KeyWord::Text(text)),
        _ => Err("one of --key and --key-text is wanted"),
    }
}

fn telling_of(matches: &ArgMatches) -> Telling {
    if matches.get_flag("stream") {
        Telling::WhenOver
    } else {
        Telling::AtTheEnd
    }
}

/// For how many seconds nothing may come or go, where that is bounded; or what is wrong with the
/// word.
pub fn timeout_of(matches: &ArgMatches) -> Result<Option<u32>, &'static str> {
    if matches.get_str("timeout").is_none() {
        return Ok(None);
    }
    match decimal(matches, "timeout") {
        Some(seconds) if seconds > 0 && seconds <= 86_400 => Ok(Some(seconds)),
        _ => Err("--timeout is a number of seconds from 1 to 86400, in decimal digits"),
    }
}

// How messages are sent.
fn form_of(matches: &ArgMatches) -> Result<Form, &'static str>
    ensures { IfOk result (λ form. IsForm form) }
{
    let order = if matches.get_flag("little") {
        Order::Little
    } else {
        Order::Big
    };
    if let Some(piece) = decimal(matches, "piece") {
        let form = Form { order, piece };
        if form.is_valid() && piece <= 1_048_584 {
            return Ok(form);
        }
    }
    Err("--piece is a multiple of 8 from 24 to 1048584, in decimal digits")
}

fn port_of(matches: &ArgMatches) -> Option<u16> {
    u16::try_from(decimal(matches, "port")?).ok()
}

fn connections_of(matches: &ArgMatches) -> Option<u32> {
    match decimal(matches, "connections")? {
        connections if connections > 0 && connections <= 65_535 => Some(connections),
        _ => None,
    }
}

// The number of an argument, where its word is decimal digits and nothing else.
fn decimal(matches: &ArgMatches, name: &str) -> Option<u32> {
    let text = matches.get_str(name)?;
    if text.as_bytes().iter().all(|octet| octet.is_ascii_digit()) {
        text.parse::<u32>().ok()
    } else {
        None
    }
}

// Whether a text is pairs of hexadecimal digits.
fn is_hexadecimal(text: &str) -> bool {
    text.len() % 2 == 0
        && text
            .as_bytes()
            .iter()
            .all(|octet| octet.is_ascii_hexdigit())
}
