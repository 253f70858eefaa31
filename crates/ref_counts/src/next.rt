// What an operation does next.
use sai_types::{Call, Vid};

/// The call of an operation that is due, or its end.
#[derive(Debug, Drop)]
pub enum Next {
    /// This call.
    Call(Call<Vid>),
    /// Nothing more.
    End,
}
