//! What holds of all records: each function does nothing, and its clause is the law.

ghost use Rattle.service_records.specs.Answer.{IsAnswer, IsTail as IsAnswerTail, answer_body, answer_of};
ghost use Rattle.service_records.specs.Fields.{IsBytes};
ghost use Rattle.service_records.specs.Framing.{cut_of, framed, longest};
ghost use Rattle.service_records.specs.Pairs.{IsPair, pairs_bytes, pairs_of};
ghost use Rattle.service_records.specs.Request.{IsRequest, IsTail, request_body, request_of};
ghost use Rattle.service_records.specs.declared.answer.Answer.{Answer};
ghost use Rattle.service_records.specs.declared.request.Request.{Request};
ghost use Rattle.std.specs.Prelude.{◌≡◌, ◌≤◌, ◌%◌, ◌++◌, length, All, List, Ok, Some, ℕ};

/// A record that is written is cut again from a stream, whatever follows it.
#[tactic(auto, using(crate::proofs::FramingLemmas::framed_again))]
pub fn records_are_cut_again()
    ensures { (body rest : List ℕ) → length body ≤ longest → cut_of (framed body ++ rest) ≡ Ok (Some (body, rest)) }
{}

/// A request that is written is read again as the same request, with its tail.
#[tactic(auto, using(crate::proofs::RequestLemmas::request_again))]
pub fn requests_read_back()
    ensures { (request : Request) (tail : List ℕ) → IsRequest request → IsTail request tail
        → request_of (request_body request tail) ≡ Ok (request, tail) }
{}

/// A request that was read has one spelling: the bytes that it was read from.
pub fn requests_write_back()
    ensures { (bytes : List ℕ) (x : Request × List ℕ) → IsBytes bytes → request_of bytes ≡ Ok x
        → (request_body x.0 x.1 ≡ bytes) × IsRequest x.0 × IsTail x.0 x.1 }
{}

/// An answer that is written is read again as the same answer, with its tail.
#[tactic(auto, using(crate::proofs::AnswerLemmas::answer_again))]
pub fn answers_read_back()
    ensures { (answer : Answer) (tail : List ℕ) → IsAnswer answer → IsAnswerTail answer tail
        → answer_of (answer_body answer tail) ≡ Ok (answer, tail) }
{}

/// An answer that was read has one spelling: the bytes that it was read from.
pub fn answers_write_back()
    ensures { (bytes : List ℕ) (x : Answer × List ℕ) → IsBytes bytes → answer_of bytes ≡ Ok x
        → (answer_body x.0 x.1 ≡ bytes) × IsAnswer x.0 × IsAnswerTail x.0 x.1 }
{}

/// Pairs that are written are read again, each in its place.
#[tactic(auto, using(crate::proofs::PairLemmas::pairs_again))]
pub fn pairs_read_back()
    ensures { (pairs : List (ℕ × ℕ)) → All IsPair pairs → pairs_of (pairs_bytes pairs) ≡ pairs }
{}

/// Pairs that were read have one spelling: the bytes that they were read from.
pub fn pairs_write_back()
    ensures { (bytes : List ℕ) → IsBytes bytes → length bytes % 16 ≡ 0 → pairs_bytes (pairs_of bytes) ≡ bytes }
{}
