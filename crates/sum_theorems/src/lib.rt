// What holds of every calc line of a sheet, by the tree that reads its text: theorems alone, no code. specs/Sums.antt states them, proofs/ has their proofs.
