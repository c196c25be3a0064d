// The demands of the request: specs/ states each for any oscillator, and proofs/ has them for the six; and what the classic one promises by shape.
#![tactic(auto)]
