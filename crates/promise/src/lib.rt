// The promise holds: whatever load and the inputs do, the circuit of an accepted table keeps the
// handshake. Theorems alone, in `proofs/`; what they say is in circuit's `specs/Promise`.
#![tactic(auto)]
