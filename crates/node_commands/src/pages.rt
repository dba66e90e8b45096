//! The pages of help on each command.

ghost use Rattle.std.specs.Prelude.{◌≡◌};
ghost use Rattle.node_commands.specs.Pages.{page_text};

use crate::help::HELP;
use crate::words::Page;

/// On `relay`.
pub const RELAY: &str = "\
usage: ice relay [--compact] FILE TYPE

Reads one encapsulation of a value of TYPE from standard input, and writes the canonical encapsulation
of the same value to standard output: in sliced format, or with --compact in compact format.

FILE is the path of a Slice file; the files that it includes are paths from the folder that ice runs in.
TYPE is bool, byte, short, int, long, string, Object, Object*, a type id of FILE, as ::M::Q, or an
interface's type id followed by *.

An encapsulation is a value's bytes with their size and version before them, of encoding 1.1: 6 to
1,048,576 bytes, and nothing after it. At most one byte behind what it claims is read.

A slice of a class that FILE lacks goes on as it came, where it has a size; else it is refused. Members
of unknown tags are passed over and not written.

The earlier step decides: the words, FILE and what it includes, TYPE, the input, the output. ice --help
has each status and its line.
";

/// On `same`.
pub const SAME: &str = "\
usage: ice same FILE TYPE

Reads two encapsulations of values of TYPE, one after the other, from standard input, and writes same or
different, with status 0 or 1: whether both are the same value, with all instances that it leads to,
however these are named.

FILE is the path of a Slice file; the files that it includes are paths from the folder that ice runs in.
TYPE is bool, byte, short, int, long, string, Object, Object*, a type id of FILE, as ::M::Q, or an
interface's type id followed by *.

An encapsulation is a value's bytes with their size and version before them, of encoding 1.1: 6 to
1,048,576 bytes, and nothing after it. At most one byte behind what it claims is read.

The earlier step decides: the words, FILE and what it includes, TYPE, the input, the output. ice --help
has each status and its line.
";

/// On `dump`.
pub const DUMP: &str = "\
usage: ice dump FILE TYPE

Reads one encapsulation of a value of TYPE from standard input, and writes a line of JSON that tells this
value, with all instances that it leads to. encode reads it again.

The JSON is {\"instances\":[I,..],\"roots\":{\"$value\":V}}. The instance at place
k of the list, counted from 0, has the number k + 2; dump lists them in the order of their first
visits. A value V is

    true, false            a bool
    a whole number         a byte, short, int or long within its range; 1.0, 1e0 and -0 are none
    \"text\"                 a string, an enumerator by its name, or a proxy as TEXT
    [V,..]                 a sequence
    [[KEY,V],..]           a dictionary, in any order, no key twice
    {\"NAME\":V,..}          a struct by the names of its members, in any order
    {\"$\":N}                the instance with the number N
    null                   no instance, or the null proxy

I is {\"slices\":[S,..]}, from the most derived class on. S is {\"class\":ID,\"members\":{\"NAME\":V,..}},
with the members that this class itself declares, and without optional ones that are absent; or, of
a class that FILE lacks, {\"bytes\":HEX,\"kept\":ID,\"optionals\":BOOL,\"table\":[{\"$\":N},..]}. An object
has no other names; of a name that comes twice the last value counts. Instances that nothing refers
to are not written.

FILE is the path of a Slice file; the files that it includes are paths from the folder that ice runs in.
TYPE is bool, byte, short, int, long, string, Object, Object*, a type id of FILE, as ::M::Q, or an
interface's type id followed by *.

An encapsulation is a value's bytes with their size and version before them, of encoding 1.1: 6 to
1,048,576 bytes, and nothing after it. At most one byte behind what it claims is read.

The earlier step decides: the words, FILE and what it includes, TYPE, the input, the output. ice --help
has each status and its line.
";

/// On `encode`.
pub const ENCODE: &str = "\
usage: ice encode [--compact] FILE TYPE

Reads a text of JSON from standard input, up to its end, and writes the canonical encapsulation of the
value that it tells to standard output: in sliced format, or with --compact in compact format. A text has
at most 16,777,216 bytes and lists at most 100,000 instances.

The JSON is {\"instances\":[I,..],\"roots\":{\"$value\":V}}. The instance at place
k of the list, counted from 0, has the number k + 2; dump lists them in the order of their first
visits. A value V is

    true, false            a bool
    a whole number         a byte, short, int or long within its range; 1.0, 1e0 and -0 are none
    \"text\"                 a string, an enumerator by its name, or a proxy as TEXT
    [V,..]                 a sequence
    [[KEY,V],..]           a dictionary, in any order, no key twice
    {\"NAME\":V,..}          a struct by the names of its members, in any order
    {\"$\":N}                the instance with the number N
    null                   no instance, or the null proxy

I is {\"slices\":[S,..]}, from the most derived class on. S is {\"class\":ID,\"members\":{\"NAME\":V,..}},
with the members that this class itself declares, and without optional ones that are absent; or, of
a class that FILE lacks, {\"bytes\":HEX,\"kept\":ID,\"optionals\":BOOL,\"table\":[{\"$\":N},..]}. An object
has no other names; of a name that comes twice the last value counts. Instances that nothing refers
to are not written.

FILE is the path of a Slice file; the files that it includes are paths from the folder that ice runs in.
TYPE is bool, byte, short, int, long, string, Object, Object*, a type id of FILE, as ::M::Q, or an
interface's type id followed by *.

The earlier step decides: the words, FILE and what it includes, TYPE, the input, the output. ice --help
has each status and its line.
";

/// On `check`.
pub const CHECK: &str = "\
usage: ice check FILE

Reads FILE and all that it includes, and writes how many types (sequences, dictionaries, structs and
enums), classes, exceptions and interfaces they define, as
    ok: 2 types, 5 classes, 0 exceptions, 1 interfaces

FILE has at most 1,000,000 bytes and includes at most 99 files, which are paths from the folder that ice
runs in. What is wrong is told with file, place and kind; ice --help has each kind. Nothing is read from
standard input.
";

/// On `proxy`.
pub const PROXY: &str = "\
usage: ice proxy TEXT

Writes the proxy that TEXT stands for in its one form, and then its bytes in hexadecimal, a line each.

TEXT is an identity, options, and endpoints or an adapter:

    [CATEGORY/]NAME [-f FACET] [-t|-o|-O|-d|-D] [-s] [-p M.N] [-e M.N] {:ENDPOINT} or @ ADAPTER

The modes are -t twoway, -o oneway, -O batch oneway, -d datagram and -D batch datagram; -s is
secure, -p and -e are the versions of protocol and encoding. Left out they are -t, -p 1.0 and
-e 1.1. ENDPOINT is tcp or default, [-h HOST] [-p PORT] [-t MILLISECONDS|infinite] [-z], left out
no host, port 0 and 60000; or opaque -t TYPE -e M.N -x HEX. Each option stands once at most. A text
with a blank, : or @ stands in \". Escapes are \\\\ \\\" \\/ \\' \\a \\b \\t \\n \\v \\f \\r, \\ and three
octal digits, \\u and four or \\U and eight hexadecimal digits.

Nothing is read from standard input.
";

/// On `call`.
pub const CALL: &str = "\
usage: ice call [--retries R] [--times T] [--compact] [--locator PROXY] FILE INTERFACE PROXY OPERATION

Reads the arguments of OPERATION as JSON from standard input, up to its end, calls it on the object of
PROXY, and writes its results as a line of JSON; T times, one after the other, up to the first that
does not succeed. R is 0 to 10, T 1 to 1,000; left out, both are 1. With --compact arguments are
written in compact format.

INTERFACE is the type id of an interface of FILE, OPERATION the name of one of its operations, of one
of its bases, or of ice_ping, ice_isA, ice_id and ice_ids. PROXY is a text as ice proxy --help tells
it. Where it is oneway or batch oneway no reply comes, and call writes sent 1 for each message, or sent
T for all calls in one batch. Where it has no endpoints, the locator of the proxy behind --locator is
asked for those of its adapter, or of its object where it has none, and what it told is kept for the
calls that follow.

The JSON is as ice dump --help tells it, with the parameters by their names in place of $value, and what
the operation returns as $return: {\"instances\":[],\"roots\":{\"n\":2}} for int add(int n), of which comes
{\"instances\":[],\"roots\":{\"$return\":2}}. A first call of a server that listens on port 4061 is

    echo '{\"instances\":[],\"roots\":{}}' |
        ice call FILE INTERFACE 'NAME:tcp -h HOST -p 4061' ice_ping

A call is tried again, R times at most, at the next endpoint of PROXY, where it cannot have been
dispatched: no connection was had, the message was not sent whole, or the server closed the
connection. Where it was sent whole and no reply came, it may have been dispatched: then it is tried
again only where OPERATION is idempotent.

What ends a call without success is told as ice: call ended: REASON, with one of these:

  raised TYPEID              the operation raised a user exception of this type
  missing STATUS             no such object (2), facet (3) or operation (4)
  unknown STATUS \"TEXT\"     the server failed: a local (5), user (6) or other exception (7)
  no endpoint                PROXY has no TCP endpoint
  not located                the locator does not know the object or the adapter
  closed                     the server closed the connection, so the call was not dispatched
  ended                      the server's stream ended before a reply
  broke at PLACE: KIND       what the server sent is no message, not the one that may come, or no
                             results of OPERATION: the place counts in the message, or in the
                             encapsulation of the results. The kind is one of an input, or it is
                             NotValidated (the first message is neither a validate nor a close),
                             Unexpected (no server sends it) or UnknownId (of another request)

The earlier step decides: the words, FILE and what it includes, INTERFACE, OPERATION, PROXY, the input,
and then the net and the output by turns. ice --help has each status and its line.
";

/// On `serve`.
pub const SERVE: &str = "\
usage: ice serve [--workers W] [--connections C] FILE HOST PORT OBJECT..

Listens at HOST and PORT, writes listening PORT, serves C connections, W at once, each up to its end,
and then writes served N, the number of those that it accepted. W is 1 to 64, left out 1; C is 1 to
1,000,000, left out the most. HOST is a name or an address, PORT 0 to 65535, and 0 lets the system
choose. OBJECT is one of these, cut at its first and second =, which are all different:

    store=IDENTITY=INTERFACE   an object that keeps a number and a value, both at first zero: add
                               takes an int, adds it and gives the number, total gives it; put keeps
                               its one argument, and get gives it. Those count that INTERFACE declares
    echo=IDENTITY=INTERFACE    gives arguments as results, for operations where both are alike
    locator=IDENTITY           a locator, which finds the places below
    place=IDENTITY=PROXY       what locators answer for the object
    adapter=ID=PROXY           what locators answer for the adapter

There are at most 64 words.

A connection that stays open holds a worker, and Ice clients keep theirs open: W is the number of
clients that are served at once. Others wait until one is free; an Ice client gives up after 60
seconds where nothing else is set, and also where a reply takes longer: serve sends no heartbeats.

The earlier step decides: the words, FILE and what it includes, each INTERFACE, each IDENTITY and
PROXY, the net. ice --help has each status and its line.

Nothing is read from standard input.
";

/// On `gate`.
pub const GATE: &str = "\
usage: ice gate [--connections C] [--retries R] FILE INTERFACE HOST PORT PROXY

Listens at HOST and PORT, writes listening PORT, serves C connections, one after the other, and then
writes served N. Each call of an operation of INTERFACE goes out to the endpoints of PROXY, and what
comes back is its answer; arguments and results are read under FILE and go on in canonical form,
sliced. C is 1 to 1,000,000, left out the most; R is 0 to 10, left out 1: a call is tried again as ice
call --help tells it.

A call's identity, facet, operation, mode and context stay; of PROXY its endpoints alone count, and it
has some. What fails for one call ends nothing: the caller is answered with an unknown local exception,
whose text is

    bad arguments KIND at PLACE    the arguments are not those of the operation; they did not go out
    too long                       they have more than 1,000,000 bytes in canonical form, or the
                                   request more than 1,048,576, and did not go out; or the results
    no upstream                    PROXY has no TCP endpoint
    upstream failed                no connection was had, or it was lost
    upstream ended                 the server's stream ended before a reply
    upstream closed                the server closed the connection
    upstream broke                 what the server sent is no message, or not the one that may come
    bad results KIND at PLACE      the reply is not one of the operation

A call that asks for no reply and cannot go out is dropped.

The earlier step decides: the words, FILE and what it includes, INTERFACE, PROXY, the net. ice --help
has each status and its line.
";

/// On `messages`.
pub const MESSAGES: &str = "\
usage: ice messages

Reads messages of protocol 1.0, one after the other, from standard input, and writes a line for each as
soon as it is there:

    request ID \"IDENTITY\" \"FACET\" \"OPERATION\" MODE CONTEXTS BODY
    batch COUNT
    reply ID STATUS BODY
    validate
    close

MODE is 0 normal, 1 nonmutating, 2 idempotent; CONTEXTS is how many entries the context has; BODY
is how many bytes the arguments have, or of a reply all that follows its status; STATUS is 0
success, 1 a user exception, 2 to 4 no such object, facet or operation, 5 to 7 an unknown local
exception, user exception or other exception. There are at most 1,000,000 messages, of at most
1,048,576 bytes each.

What is no message is refused at the first byte of the part with the first fault, after the lines of
the messages before it; ice --help has each kind.
";

/// On `audit`.
pub const AUDIT: &str = "\
usage: ice audit CLIENT SERVER

Reads what both ends of one connection sent, and writes how often each of its calls was dispatched,
over every run of the protocol that shows these bytes, and then yes; or, where something is wrong, what
and where, with status 1.

CLIENT and SERVER are paths of files: a capture, which is all bytes that the client sent on one TCP
connection, from its beginning on, and all that the server sent on it. A recorder that stands
between both ends writes them, and so does Wireshark: follow the TCP stream, show the data of one
direction as raw, save it, and then so with the other direction.

Each request and each batch that is not empty has a line, in order:

    request ID N
    batch COUNT N

N says how often the call was dispatched, or each of the COUNT calls of the batch: 1 once, 0 never,
0 or 1 where the bytes do not tell. A request with the ID 0 asks for no reply. A message whose end
lacks at the end of a file is left out. Or the one line is

    no client PLACE: KIND
    no server PLACE: KIND

with the first byte of the first part of that file that is wrong, counted from 0, and its kind. What
is wrong with CLIENT comes first, but for NotValidated.

KIND of a capture is one of those of an input that a message may have, or one of these:

  TooLong       the file has more than 16,777,216 bytes
  Unexpected    this end sends no such message
  AfterClose    a message follows the close message of its end
  NotValidated  the first message of the server is no validate message; of the client: it has sent
                something, and the server no message
  UnknownId     a reply is not to the next request that asks for one: replies out of order, which a
                server with several threads may send, are refused so

The earlier step decides: the words, CLIENT, SERVER, the output. Nothing is read from standard input.
";

/// On `compat`.
pub const COMPAT: &str = "\
usage: ice compat OLD NEW TYPE

Reads two Slice files with all that they include, and tests whether what was spelled of TYPE under OLD
can be read under NEW: it writes yes, or the first test that failed, with status 1. TYPE is tested first,
and then the classes of OLD that a value of TYPE may lead to, with their bases, as they stand there:

    no $value              TYPE, or the type of an element or a member in it, is another one in NEW:
                           a struct has more or fewer members, an enum lacks a number, a class is
                           not there, or does not fit there
    no TYPEID: missing     NEW lacks the class
    no TYPEID: base        the bases are not of one type id, or one of both classes has none
    no TYPEID: compact id  the compact id is another one, or none
    no TYPEID: members     there are more or fewer members that are not optional
    no TYPEID.NAME         the member that has this name in OLD cannot be read there: the first one
                           that is not optional, or else the optional one of the least tag

Types count, and no names but the type ids of classes. A class may get a compact id, and optional
members may come and go. Where the answer is yes, the bytes of a value of TYPE under OLD that holds these
classes alone, and no tag that OLD lacks, are the bytes of the same value under NEW, but for the optional
members whose tags NEW lacks. In compact format that is not said where such a member is a proxy, or a
sequence, a dictionary or a struct with parts of no fixed size.

The earlier step decides: the words, OLD, NEW, TYPE in OLD, TYPE in NEW, the output. Nothing is read from
standard input.
";

/// On `drill`.
pub const DRILL: &str = "\
usage: ice drill START COUNT

Draws a graph of COUNT instances of class N { int v; N left; N right; }, 1 to 50000, from the number
START, 0 to 2147483647, both in decimal digits without a sign or zeros in front; writes it in compact
format, relays it to sliced format and from there again, and writes what came of it, as

    nodes 1 reached 1 compact 21 sliced 25 same yes

Nothing is read from standard input.
";

/// The text of a page.
pub(crate) fn text_of(page: Page) -> &'static str
    ensures { result.now ≡ page_text page }
{
    match page {
        Page::All => HELP,
        Page::Relay => RELAY,
        Page::Same => SAME,
        Page::Dump => DUMP,
        Page::Encode => ENCODE,
        Page::Check => CHECK,
        Page::Proxy => PROXY,
        Page::Call => CALL,
        Page::Serve => SERVE,
        Page::Gate => GATE,
        Page::Messages => MESSAGES,
        Page::Audit => AUDIT,
        Page::Compat => COMPAT,
        Page::Drill => DRILL,
    }
}
