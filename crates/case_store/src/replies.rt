// What stored calls are answered.
use case_core::Reply;
use type_core::KindReply;

/// What the machine of a type or of a case answers.
#[derive(Drop)]
pub enum StoredReply {
    Kind(KindReply),
    Case(Reply),
}
