//! What holds of all commands and datagrams in words: each function does nothing, and its clause is the law.

ghost use Rattle.message_words.specs.Laws.{IsMessage, IsDecoded, message_words};
ghost use Rattle.message_words.specs.Message.{message_of};
ghost use Rattle.message_words.specs.declared.message.Message.{Message};
ghost use Rattle.std.specs.Prelude.{◌≡◌, List, Ok, ℕ};

/// Words denote only what can be written and is then read again: each number fits its field, texts are ASCII, and texts and
/// byte strings keep their bounds.
#[tactic(auto, using(crate::proofs::SoundWords::message_sound))]
pub fn words_denote_sound_messages()
    ensures { (words : List (List ℕ)) (message : Message) → message_of words ≡ Ok message → IsMessage message }
{}

/// Whatever can be written and is then read again has words, and they denote it.
#[tactic(auto, using(crate::proofs::MessagesBack::message_back))]
pub fn words_denote_their_message()
    ensures { (message : Message) → IsMessage message → message_of (message_words message) ≡ Ok message }
{}

/// Of what `encode` gives for words, `decode` names the same fields: its answer is the line that a shell reads as words
/// which denote the same command or datagram.
pub fn what_is_encoded_is_decoded()
    ensures { (words : List (List ℕ)) (message : Message) → message_of words ≡ Ok message → IsDecoded message }
{}
