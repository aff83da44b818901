// A self-contained page around a picture: it lets the reader zoom and drag the picture, and lists its lines beside it.

/// The text before the picture.
pub const HEAD: &str = "<!DOCTYPE html>
<html lang='en'>
<head>
<meta charset='utf-8'>
<title>A run</title>
<style>
html, body { height: 100%; margin: 0 }
body { display: flex; font: 13px sans-serif; color: #222; background: #fff }
#side { width: 330px; display: flex; flex-direction: column; border-right: 1px solid #999 }
#side input { margin: 8px; padding: 4px; font: inherit }
#found { margin: 0 8px 6px; color: #444 }
#lines { flex: 1; margin: 0; padding: 0; overflow: auto; list-style: none; font: 12px monospace }
#lines li { padding: 2px 8px; white-space: pre-wrap; overflow-wrap: anywhere; cursor: pointer }
#lines li b { color: #335 }
#lines li[aria-selected=true] { background: #222; color: #fff }
#lines li[aria-selected=true] b { color: #fff }
#lines:focus, #view:focus { outline: 3px solid #2b5190; outline-offset: -3px }
#view { flex: 1; overflow: hidden; cursor: grab; touch-action: none }
#view svg { width: 100%; height: 100%; display: block }
#keys { margin: 6px 8px; color: #444; font-size: 11px }
</style>
</head>
<body>
<div id='side'>
<input id='search' type='search' placeholder='search lines and answers' aria-label='search lines and answers'>
<p id='found' role='status'></p>
<ol id='lines' role='listbox' tabindex='0' aria-label='lines with their answers'></ol>
<p id='keys'>In the list: up, down, home, end. In the picture: arrows move it, + and - zoom, 0 shows all, 1 is its size; the wheel zooms, the pointer drags.</p>
</div>
<div id='view' tabindex='0' role='img' aria-label='the picture of the run'>
";

/// The text after the picture.
pub const TAIL: &str = "</div>
<script>
'use strict';
const at = id => document.getElementById(id);
const view = at('view'), list = at('lines'), search = at('search'), found = at('found');
const svg = view.querySelector('svg');
const width = Number(svg.getAttribute('width')), height = Number(svg.getAttribute('height'));
svg.setAttribute('preserveAspectRatio', 'xMinYMin meet');
svg.removeAttribute('width');
svg.removeAttribute('height');
const box = { x: 0, y: 0, scale: 1 };
function show() {
  const w = Math.max(view.clientWidth, 1) / box.scale, h = Math.max(view.clientHeight, 1) / box.scale;
  svg.setAttribute('viewBox', `${box.x} ${box.y} ${w} ${h}`);
}
function zoom(by, x, y) {
  const scale = Math.min(Math.max(box.scale * by, 0.02), 40);
  box.x += x / box.scale - x / scale;
  box.y += y / box.scale - y / scale;
  box.scale = scale;
  show();
}
function move(x, y) {
  box.x += x / box.scale;
  box.y += y / box.scale;
  show();
}
function whole() {
  box.scale = Math.min(view.clientWidth / width, view.clientHeight / height);
  box.x = box.y = 0;
  show();
}
const cursor = document.createElementNS('http://www.w3.org/2000/svg', 'rect');
cursor.setAttribute('id', 'cursor');
cursor.setAttribute('width', '14');
cursor.setAttribute('height', height);
cursor.setAttribute('fill', '#2b5190');
cursor.setAttribute('fill-opacity', '0');
svg.appendChild(cursor);
const rows = [];
let picked = null;
for (const mark of svg.querySelectorAll('g[id^=line]')) {
  const [line, answer] = mark.querySelector('title').textContent.split('\\n');
  const item = document.createElement('li');
  const number = mark.id.slice(4);
  item.id = 'item' + number;
  item.setAttribute('role', 'option');
  item.append(number + '  ' + line + '  ');
  const said = document.createElement('b');
  said.textContent = answer;
  item.append(said);
  const row = { mark, item, text: (number + ' ' + line + ' ' + answer).toLowerCase() };
  item.onclick = () => pick(row, true);
  mark.onclick = () => pick(row, false);
  rows.push(row);
  list.append(item);
}
function shown() { return rows.filter(row => !row.item.hidden); }
function pick(row, centre) {
  if (picked) picked.item.setAttribute('aria-selected', 'false');
  picked = row;
  row.item.setAttribute('aria-selected', 'true');
  row.item.scrollIntoView({ block: 'nearest' });
  list.setAttribute('aria-activedescendant', row.item.id);
  const use = row.mark.querySelector('use');
  const x = Number(use.getAttribute('x')), y = Number(use.getAttribute('y'));
  cursor.setAttribute('x', x - 7);
  cursor.setAttribute('fill-opacity', '.25');
  if (centre) {
    box.x = x - view.clientWidth / box.scale / 2;
    if (y < box.y || y > box.y + view.clientHeight / box.scale) box.y = y - view.clientHeight / box.scale / 2;
    show();
  }
}
function filter() {
  const word = search.value.trim().toLowerCase();
  for (const row of rows) row.item.hidden = !row.text.includes(word);
  found.textContent = shown().length + ' of ' + rows.length + ' lines';
}
search.oninput = filter;
search.onkeydown = event => {
  if (event.key !== 'Enter' && event.key !== 'ArrowDown') return;
  const all = shown();
  if (all.length) pick(all[0], true);
  list.focus();
  event.preventDefault();
};
list.onkeydown = event => {
  const all = shown(), i = all.indexOf(picked), last = all.length - 1;
  const to = { ArrowDown: Math.min(i + 1, last), ArrowUp: Math.max(i - 1, 0), Home: 0, End: last, Enter: i }[event.key];
  if (to === undefined || !all[to]) return;
  pick(all[to], true);
  event.preventDefault();
};
view.onkeydown = event => {
  const x = view.clientWidth / 2, y = view.clientHeight / 2;
  const does = {
    ArrowLeft: () => move(-80, 0), ArrowRight: () => move(80, 0), ArrowUp: () => move(0, -80), ArrowDown: () => move(0, 80),
    '+': () => zoom(1.25, x, y), '=': () => zoom(1.25, x, y), '-': () => zoom(0.8, x, y), '0': whole,
    '1': () => zoom(1 / box.scale, x, y),
  }[event.key];
  if (!does) return;
  does();
  event.preventDefault();
};
view.addEventListener('wheel', event => {
  const edge = view.getBoundingClientRect();
  zoom(Math.exp(-event.deltaY / 400), event.clientX - edge.left, event.clientY - edge.top);
  event.preventDefault();
}, { passive: false });
let held = null;
view.onpointerdown = event => { held = [event.clientX, event.clientY]; };
window.addEventListener('pointermove', event => {
  if (!held) return;
  move(held[0] - event.clientX, held[1] - event.clientY);
  held = [event.clientX, event.clientY];
});
window.addEventListener('pointerup', () => { held = null; });
window.addEventListener('resize', show);
filter();
show();
const row = rows.find(row => '#' + row.mark.id === location.hash);
if (row) pick(row, true);
</script>
</body>
</html>
";
