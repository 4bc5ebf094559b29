//! Theorems about the definitions. Each function has an empty body; its contract states the theorem.

ghost use Rattle.std.specs.Prelude.{◌≡◌, ◌+◌, ◌<◌, ◌≤◌, ◌++◌, [], ◌∷◌, List, ℕ, length};
ghost use Rattle.rad_packet.specs.Packet.{IsPacketText, code_of, identifier_of, packet_attributes};
ghost use Rattle.rad_auth.specs.Answers.{Answers};
ghost use Rattle.rad_auth.specs.Authenticator.{IsRightRequest};
ghost use Rattle.rad_auth.specs.Forwarding.{forwarded};
ghost use Rattle.rad_auth.specs.Mark.{mark_attribute};
ghost use Rattle.rad_auth.specs.Refusing.{IsAnsweredOrRefused, IsRefusedOnce};
ghost use Rattle.rad_auth.specs.declared.mark.Mark.{Mark};
ghost use Rattle.rad_auth.specs.declared.reply.RequestHead.{RequestHead};

/// A forwarded packet has Code 4, is twelve octets longer than the request, is valid under the secret, and has the
/// request's attributes in their order and then the mark.
pub fn forwarded_packet()
    ensures packet { (text : List ℕ) (mark : Mark) (identifier : ℕ) (secret : List ℕ) → IsPacketText text → length text ≤ 4084 → identifier < 256 → IsPacketText (forwarded text mark identifier secret) }
    ensures code { (text : List ℕ) (mark : Mark) (identifier : ℕ) (secret : List ℕ) → code_of (forwarded text mark identifier secret) ≡ 4 }
    ensures identifier { (text : List ℕ) (mark : Mark) (identifier : ℕ) (secret : List ℕ) → identifier_of (forwarded text mark identifier secret) ≡ identifier }
    ensures counted { (text : List ℕ) (mark : Mark) (identifier : ℕ) (secret : List ℕ) → 20 ≤ length text → length (forwarded text mark identifier secret) ≡ length text + 12 }
    ensures right { (text : List ℕ) (mark : Mark) (identifier : ℕ) (secret : List ℕ) → IsRightRequest secret (forwarded text mark identifier secret) }
    ensures attributes { (text : List ℕ) (mark : Mark) (identifier : ℕ) (secret : List ℕ) → IsPacketText text → packet_attributes (forwarded text mark identifier secret) ≡ packet_attributes text ++ mark_attribute mark ∷ [] }
{}

/// A reply to a sending determines the response to the request.
pub fn one_response()
    ensures { (head : RequestHead) (sending reply client home a b : List ℕ) → Answers head sending reply client home a → Answers head sending reply client home b → a ≡ b }
{}

/// No reply is refused for two faults, and a reply that gives a response is refused only if memory is refused.
pub fn refused_or_answered()
    ensures fault { (sending reply home : List ℕ) → IsRefusedOnce sending reply home }
    ensures answered { (sending reply home : List ℕ) → IsAnsweredOrRefused sending reply home }
{}
