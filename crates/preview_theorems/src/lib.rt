// What the numbers are that the calls `at` and `within` answer: theorems alone, no code. specs/Numbers.antt states them, proofs/ has their proofs.
