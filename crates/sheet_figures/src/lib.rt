// The figures of a sheet's tables and lines by its bytes: specs/Figures defines them, specs/Calls what each call refuses. All calls stand on this crate.
#![tactic(auto)]
