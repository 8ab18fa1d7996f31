// What holds of every walk, for those who nest tables: theorems alone, no code. specs/Descent.antt states them, proofs/ has their proofs.
