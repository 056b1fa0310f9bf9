//! What follows from the definitions, with no code.

ghost use Rattle.jmsg_types.specs.Laws.{EachTypeIsFound, RepliesAreNamedForRequests};

/// A law with no code: each type of a request is found by its name, so no two have one name.
pub fn law_each_type_is_found()
    ensures each_type_is_found { EachTypeIsFound }
{}

/// A law with no code: a reply's type is its request's with `_reply` in place of `_request`.
pub fn law_replies_are_named_for_requests()
    ensures replies_are_named_for_requests { RepliesAreNamedForRequests }
{}
