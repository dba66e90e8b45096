//! What the program tells of itself.

/// What `--help` writes: all commands in a line each, each status and its line, and each kind of fault.
pub const HELP: &str = "\
usage: ice COMMAND

  relay [--compact] FILE TYPE    reads a value, and writes its canonical encapsulation
  same FILE TYPE                 reads two values, and says same or different
  dump FILE TYPE                 reads a value, and writes a line of JSON
  encode [--compact] FILE TYPE   reads a line of JSON, and writes the value's encapsulation
  check FILE                     says what a Slice file and all that it includes define
  proxy TEXT                     writes a proxy in its one form, and its bytes
  messages                       writes a line for each message of protocol 1.0
  call [--retries R] [--times T] [--compact] [--locator PROXY] FILE INTERFACE PROXY OPERATION
                                 calls an object with arguments in JSON, and writes its results so
  serve [--workers W] [--connections C] FILE HOST PORT OBJECT..
                                 serves objects to Ice clients
  gate [--connections C] [--retries R] FILE INTERFACE HOST PORT PROXY
                                 forwards calls of Ice clients to servers
  audit CLIENT SERVER            says how often each call of a captured connection was dispatched
  compat OLD NEW TYPE            says whether what was written under OLD can be read under NEW
  drill START COUNT              draws a graph, relays it, and tells the sizes
  COMMAND --help                 writes a page on the command
  --help                         writes this text
  --version                      writes the version

A word has at most 8,192 bytes, in UTF-8. A command ends with one of these, and writes its line to standard
error. The earlier step decides, as the command's page tells it.

  2  ice: usage                  the words are none of these commands, or one is not UTF-8 or too
                                 long
  3  ice: FILE:PLACE: KIND       a Slice file is refused: its name, the fault's first byte, counted
                                 from 0, and its kind
  2  ice: no such name WORD      no type of FILE has the name TYPE, or of compat none of OLD or of NEW;
                                 of audit, no file is at the path CLIENT or SERVER; of call, serve and
                                 gate, INTERFACE or OPERATION is none
  2  ice: twoway only OPERATION  PROXY asks for no reply, and OPERATION has results or throws
  4  ice: input refused at PLACE: KIND
                                 the input is not one encapsulation of a value of TYPE, or of same
                                 not two, or a message is none: the first byte of the part with the
                                 first fault, counted from 0 through the whole input, and its kind
  4  ice: text refused: KIND     the input of encode or call is refused, for the first of these
                                 reasons: it has more than 16,777,216 bytes (TooLong); it is no
                                 JSON in UTF-8, or nests more than 127 deep (NotJson); it lists
                                 more than 100,000 instances (TooMany); it tells no value of TYPE,
                                 or not the arguments of OPERATION (Misfit)
  4  ice: kept slice needs sliced format
                                 with --compact, an instance has a slice of a class that FILE lacks
  4  ice: answer too long: LENGTH
                                 the canonical encapsulation has LENGTH bytes, more than 1,048,576,
                                 or of same more than 2,147,483,647; of call the arguments have more
                                 than 1,000,000, or the message more than 1,048,576
  4  ice: text refused at PLACE  TEXT, PROXY or IDENTITY is not that of a proxy or an identity: the
                                 first byte of the first word that cannot stand, or its length where
                                 a word lacks
  5  ice: read failed            a file or standard input could not be read
  6  ice: write failed           standard output could not be written
  7  ice: network failed         of call, the last attempt got no connection, or lost it; of serve and
                                 gate, HOST and PORT could not be had, or accepting failed
  8  ice: call ended: REASON     of call, no success came of the last attempt
  9  ice: no memory
  1  (no line)                   of same: different; of audit and compat: no
  0  (no line)                   done

After 2 to 5 and 9 nothing was written to standard output, and after 6 the first part of the answer;
but messages, call, serve and gate have told what came before.

KIND of a Slice file is one of these:

  NoFile        no file has the included name, or that of FILE
  TooManyFiles  an included file is one more than 99
  TooLong       the text has more than 1,000,000 bytes
  BadByte       no token of Slice begins with this byte
  OpenString    a string does not end on its line
  OpenComment   a comment does not end
  BadNumber     a number is misspelled, or too large
  Expected      no Slice file goes on with this token
  FloatUsed     float and double are left out
  Unknown       nothing of this name was declared before
  WrongUse      the name stands for something that cannot be used here
  Clash         the scope or the definition has this name, or one that differs in case alone
  BadKey        the type cannot be the key of a dictionary
  BadTag        a tag is no number from 0 to 2147483647, or comes twice
  BadCompactId  a compact id is no number from 0 to 2147483647, or that of an earlier class
  BadBase       the base is not defined yet, or named twice
  BadValue      the value does not fit its type, or comes twice in an enum; or an in parameter
                follows an out parameter
  NoMembers     a struct or an enum is empty
  TooDeep       the type nests more than 100 deep
  TooBig        the smallest value of a struct has more than 1,048,576 bytes, or an interface has
                more than 1,000 bases
  Undefined     a class is declared and never defined

KIND of an input is one of these:

  Short         the part goes past the end of the input, or of the encapsulation, slice, optional
                member or message that it is in; a message that the input does not hold whole, at
                its first byte
  TooLarge      the size of an encapsulation or a message is above 1,048,576
  BadSize       a size is negative, or in five bytes and below 255; that of an encapsulation is
                below 6, that of a slice below 4, that of a message below 14
  BadMagic      a message does not begin with IceP
  BadVersion    the version of the encapsulation is not 1.1, or one of a message is not 1.0
  BadMessage    the type of a message is above 4
  Compressed    a message is compressed
  BadStatus     the compression status of a message is above 2, or the status of a reply above 7
  BadBool       a bool is neither 0 nor 1
  BadText       a string is not UTF-8
  BadEnum       an enum has no such value
  EqualKey      the key comes a second time in its dictionary or context
  BadTag        no optional member or end may stand here; a tag does not rise, or is below 30 in its
                long form
  BadFormat     an optional member stands in another format than that of its type
  BadFlags      the flags of a slice are none that may stand here
  BadLast       a slice is the last where its class has a base, or is not where it has none
  BadTypeId     the index of a type id is 0, or above the number of type ids so far; or a type id
                begins with #
  WrongBase     the type id after a slice is not that of its class's base
  UnknownClass  FILE has no class of this type id
  BadReference  a reference to an instance that has not begun, a null in the indirection table of a
                slice, or a place past the end of the table
  TooMany       the reference begins an instance that is one more than 100,000
  BadIdentity   a proxy has a category and no name
  BadFacet      a facet is more than one text
  BadMode       the mode of a proxy is above 4, that of a call above 2
  LeftOver      bytes are left after the last part
  WrongClass    the class of the instance is not the declared one, nor derived from it
  Endless       more than 1,000,000 messages
";

/// What `--version` writes.
pub const VERSION: &str = "ice 1.0.0\n";
