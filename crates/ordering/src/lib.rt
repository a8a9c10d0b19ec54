// Definitions only: the links between the commits of an image, an order of the commits that gives the image, or a ring of links. See specs/.
#![tactic(auto)]
