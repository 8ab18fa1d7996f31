// Which cells can go missing, for those who teach it: theorems and cases alone, no code. specs/Missing.antt states them, proofs/ has their proofs.
