// The cases that are asked to be proved, about the definitions: cases alone, no code. specs/Cases.antt has those of the list, specs/Sheets.antt whole sheets.
