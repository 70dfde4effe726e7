// The built-in seasons.

// Grades: sketches of small caves, most of them by their shape alone.
pub const GRADES: &str = "book triangle
plain 3
leg 0 1 1
leg 1 2 1
leg 2 0 1
book marked
station plain
station plain
station entrance
leg 0 1 1
leg 1 2 1
leg 2 0 1
book ring
plain 6
leg 0 1 1
leg 1 2 1
leg 2 3 1
leg 3 4 1
leg 4 5 1
leg 5 0 1
book triangles
plain 6
leg 0 1 1
leg 1 2 1
leg 2 0 1
leg 3 4 1
leg 4 5 1
leg 5 3 1
book mixed
plain 7
leg 0 1 1
leg 1 2 1
leg 2 0 1
leg 3 4 1
leg 4 5 1
leg 5 6 1
leg 6 3 1
book tree
station entrance
station junction
station end
station junction
station end
station lead
leg 0 1 1
leg 1 2 2
leg 1 3 1
leg 3 4 2
leg 3 5 2
book grades
plain 3
leg 0 1 3
leg 1 2 4
leg 2 0 5
book lone
plain 1
book nothing
book crowd
plain 65
book loop
plain 3
leg 0 1 1
leg 2 2 1
copy ring-moved ring 5 2
copy mixed-moved mixed 1 4
copy tree-moved tree 5 1
copy triangle-moved triangle 2 1
enter both-ways triangle 0
find both-ways triangle 0
find table triangle-moved 0
enter table triangle 100
enter table triangle-moved 100
find both-ways marked 0
enter both-ways ring 100
find both-ways ring-moved 100
find both-ways triangles 100
find as-read ring 100
enter both-ways mixed 100
find both-ways mixed-moved 0
find both-ways mixed-moved 4
find both-ways mixed-moved 5
enter both-ways mixed-moved 4
enter both-ways mixed-moved 100
enter without-0 ring 100
find without-3 ring 100
find without-3 ring-moved 100
find without-1 mixed 100
enter both-ways tree 100
find both-ways tree-moved 100
enter both-ways tree-moved 0
enter turned triangle-moved 100
find both-ways grades 100
enter both-ways grades 100
enter as-read lone 0
find as-read lone 0
enter as-read nothing 100
enter as-read crowd 100
enter both-ways loop 100
enter both-ways triangles 100
enter both-ways marked 100
find both-ways ring 0
";

// Readings: two series that a spring and an autumn party surveyed, and a round of passages with one and the same
// reading on every leg.
pub const READINGS: &str = "book entrance
station entrance
station junction
station pitch
station sump
station lead
leg 0 1 1234 905 -120
leg 1 2 860 1800 -450
leg 2 3 415 2250 -875
leg 1 4 2310 3150 35
leg 4 2 1990 1120 -210
book drain
station sump
station junction
station plain
station choke
station junction
station end
station pitch
leg 0 1 3020 120 0
leg 1 2 1540 450 15
leg 2 3 600 1350 -300
leg 2 4 1540 450 15
leg 4 5 910 2700 60
leg 4 6 1260 95 -640
leg 6 1 2275 2010 110
book round
plain 4
leg 0 1 1000 0 0
leg 1 2 1000 0 0
leg 2 3 1000 0 0
leg 3 0 1000 0 0
book broken
plain 2
leg 0 1 500 300 0
leg 1 1 20 0 0
copy entrance-autumn entrance 2 1
copy drain-autumn drain 3 2
copy round-autumn round 3 1
enter both-ways entrance 1000
enter both-ways entrance-autumn 1000
find as-read entrance-autumn 1000
find as-read entrance 1000
find turned entrance 1000
enter as-read entrance 1000
enter both-ways drain 1000
find both-ways drain-autumn 1000
enter both-ways drain-autumn 1000
find without-3 entrance 1000
enter without-3 entrance 1000
find turned drain 1000
enter both-ways round 1000
find both-ways round-autumn 0
find both-ways round-autumn 1000
enter both-ways broken 1000
enter without-6 drain 1000
";
