//! What the definitions promise of each other, one law a function.

ghost use Rattle.std.specs.Prelude.{◌≡◌, ◌≤◌, ◌++◌, ℕ, List, Ok, Err, None, Some, Option, Result, length, ◌↔◌};
ghost use Rattle.ice_prims.specs.declared.fault.Fault.{Fault};
ghost use Rattle.ice_prims.specs.Rest.{IsBytes, whole};
ghost use Rattle.ice_prims.specs.Laws.{FoundPart, OnlyPart};
ghost use Rattle.ice_messages.specs.declared.message.Message.{Message};
ghost use Rattle.ice_messages.specs.Messages.{message_at, message_bytes, whole_message_at, SpellsMessage, IsMessage};
ghost use Rattle.ice_messages.specs.Streams.{Stream, IsStream, IsFront, next_at};
ghost use Rattle.ice_messages.specs.Framing.{Held, Ran};
ghost use Rattle.ice_messages.specs.Breaks.{MessageBreaks};
ghost use Rattle.ice_messages.specs.WholeBreaks.{InputBreaks};
ghost use Rattle.ice_messages.specs.declared.message.Call.{Call};
ghost use Rattle.ice_messages.specs.declared.message.Answer.{Answer};
ghost use Rattle.ice_messages.specs.Written.{IsAnswer, IsCall, IsOrderly};
ghost use Rattle.ice_messages.specs.Written.{IsWritable, IsWritableAnswer, IsWritableCall};

/// What is read is spelled by the bytes that were taken, and what is spelled is read, whatever follows it.
pub fn messages_exact()
    ensures found { FoundPart message_at SpellsMessage }
    ensures only { OnlyPart message_at SpellsMessage }
    ensures sort { (bytes : List ℕ) (m : Message) → IsBytes bytes → SpellsMessage bytes m → IsMessage m }
{}

/// No spelling of a message begins another, and none has fewer bytes than a header.
pub fn messages_apart()
    ensures apart { (a b x y : List ℕ) (m n : Message)
        → SpellsMessage a m → SpellsMessage b n → a ++ x ≡ b ++ y → (m ≡ n) × (x ≡ y) }
    ensures long { (bytes : List ℕ) (m : Message) → SpellsMessage bytes m → 14 ≤ length bytes }
{}

/// What is written of a message, where it is not longer than a message may be, spells it; and no
/// spelling is shorter, so that what was read can be written again.
pub fn messages_written()
    ensures spelled { (m : Message) → IsMessage m → length (message_bytes m) ≤ 1048576
        → SpellsMessage (message_bytes m) m }
    ensures shortest { (bytes : List ℕ) (m : Message) → IsBytes bytes → SpellsMessage bytes m
        → length (message_bytes m) ≤ length bytes }
{}

/// A message as one is read may be written, and so may its calls and its answer.
pub fn orderly_written()
    ensures message { (m : Message) → IsOrderly m → IsWritable m }
    ensures call { (c : Call) → IsCall c → IsWritableCall c }
    ensures answer { (a : Answer) → IsAnswer a → IsWritableAnswer a }
{}

/// A message that is cut is a front, wherever it is cut.
pub fn cut_message()
    ensures { (bytes more : List ℕ) (m : Message) → SpellsMessage (bytes ++ more) m → 1 ≤ length more
        → IsFront bytes }
{}

/// Bytes are messages, one after the other, and then a front or a fault: in one way, and in one alone.
pub fn one_stream()
    ensures some { (bytes : List ℕ) → IsBytes bytes
        → (ms : List Message) × (rest : List ℕ) × (end : Option Fault) × IsStream bytes ms rest end }
    ensures one { (bytes : List ℕ) (ms ns : List Message) (rest left : List ℕ) (a b : Option Fault)
        → IsStream bytes ms rest a → IsStream bytes ns left b → (ms ≡ ns) × (rest ≡ left) × (a ≡ b) }
{}

/// What stands next is none as long as the bytes are a front, and else a message or a fault.
pub fn fronts_wait()
    ensures { (bytes : List ℕ) → IsBytes bytes → IsFront bytes ↔ (next_at bytes ≡ Ok None) }
{}

/// What stands next has a fault exactly where the message that begins there has that defect. Bytes have one first
/// defect at most, and none where they are a front or begin with a message.
pub fn first_faults()
    ensures next { (bytes : List ℕ) (fault : Fault) → IsBytes bytes
        → (next_at bytes ≡ Err fault) ↔ MessageBreaks bytes fault }
    ensures one { (bytes : List ℕ) (a b : Fault) → MessageBreaks bytes a → MessageBreaks bytes b → a ≡ b }
    ensures no_front { (bytes : List ℕ) (fault : Fault) → MessageBreaks bytes fault → ¬ IsFront bytes }
    ensures no_message { (first others : List ℕ) (m : Message) (fault : Fault)
        → MessageBreaks (first ++ others) fault → ¬ SpellsMessage first m }
{}

/// Bytes that have to be one message are refused exactly where they have the defect as one.
pub fn input_faults()
    ensures { (bytes : List ℕ) (fault : Fault) → IsBytes bytes
        → (whole_message_at (whole bytes) ≡ Err fault) ↔ InputBreaks bytes fault }
{}

/// The messages of the first bytes of a stream are the first messages of the stream.
pub fn first_messages()
    ensures { (bytes more left rest : List ℕ) (ns ms : List Message) (end : Option Fault)
        → Stream bytes ns left → IsStream (bytes ++ more) ms rest end → (others : List Message) × (ms ≡ ns ++ others) }
{}

/// Whatever the pieces: the bytes that were fed to a reader are the messages that it handed out, one after the
/// other, and the bytes that it holds.
pub fn pieces_read()
    ensures { (bytes : List ℕ) (ms : List Message) (held : Held) → Ran bytes ms held → IsBytes bytes
        → Stream bytes ms held.bytes }
{}
