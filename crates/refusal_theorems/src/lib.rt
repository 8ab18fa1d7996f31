// What holds of every refusal: theorems alone, no code. specs/NoSeven.antt states them, proofs/ has their proofs.
