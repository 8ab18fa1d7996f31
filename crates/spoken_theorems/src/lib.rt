// What holds of every reply of the call `spoken`: theorems alone, no code. specs/Spoken.antt states them, proofs/ has their proofs, and specs/Cases.antt
// has whole sheets from their bytes.
