//! What holds of all commands and replies: each function does nothing, and its clause is the law.

ghost use Rattle.std.specs.Prelude.{◌≡◌, ◌↔◌, Ok, Some, List, ℕ, ℤ};
ghost use Rattle.command_codec.specs.Command.{IsCommand, command_bytes, command_of, correlation_of};
ghost use Rattle.command_codec.specs.Destination.{DestinationsReadBack};
ghost use Rattle.command_codec.specs.ErrorCode.{code_number, code_of};
ghost use Rattle.command_codec.specs.Fields.{IsBytes};
ghost use Rattle.command_codec.specs.Reply.{IsReply, reply_bytes, reply_of};
ghost use Rattle.command_codec.specs.declared.command.Command.{Command};
ghost use Rattle.command_codec.specs.declared.error_code.ErrorCode.{ErrorCode};
ghost use Rattle.command_codec.specs.declared.reply.Reply.{Reply};

/// A command that is written is read again as the same command.
#[tactic(auto, using(crate::proofs::CommandLemmas::command_again))]
pub fn commands_read_back()
    ensures { (command : Command) → IsCommand command → command_of (command_bytes command) ≡ Ok command }
{}

/// A command that was read can be written, and has one spelling: the bytes that it was read from.
pub fn commands_write_back()
    ensures { (bytes : List ℕ) (command : Command) → IsBytes bytes → command_of bytes ≡ Ok command
        → (command_bytes command ≡ bytes) × IsCommand command }
{}

/// The fields of a command on a destination are read again as they were written, and have one spelling.
pub fn destinations_read_back()
    ensures { DestinationsReadBack }
{}

/// The correlation id that an error names is the command's, where the bytes are a command.
#[tactic(auto, using(crate::proofs::CommandLemmas::correlation_in_place))]
pub fn correlation_is_in_place()
    ensures { (bytes : List ℕ) (command : Command) → command_of bytes ≡ Ok command
        → correlation_of bytes ≡ command.correlation }
{}

/// A reply that is written is read again as the same reply.
#[tactic(auto, using(crate::proofs::ReplyLemmas::reply_again))]
pub fn replies_read_back()
    ensures { (reply : Reply) → IsReply reply → reply_of (reply_bytes reply) ≡ Ok reply }
{}

/// A reply that was read can be written, and has one spelling: the bytes that it was read from.
pub fn replies_write_back()
    ensures { (bytes : List ℕ) (reply : Reply) → IsBytes bytes → reply_of bytes ≡ Ok reply
        → (reply_bytes reply ≡ bytes) × IsReply reply }
{}

/// Each code has a number, and no two codes have the same one.
#[tactic(auto, using(crate::proofs::CodeLemmas::code_by_number))]
pub fn codes_are_told_by_their_numbers()
    ensures { (code : ErrorCode) (number : ℤ) → (code_of number ≡ Some code) ↔ (number ≡ code_number code) }
{}
