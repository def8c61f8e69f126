// C-21, theorems alone: slide the picture, slide the square. There is no code here.
#![tactic(auto)]
