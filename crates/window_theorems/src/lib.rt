// What holds of every report of the call `window`: theorems alone, no code. specs/Window.antt states them, proofs/ has their proofs.
